//! Words and signs that come next.

ghost use Rattle.std.specs.Prelude.{◌≡◌, true, false, option_map, MatchResult};
ghost use Rattle.semantics.specs.Source.Scope.{find};
ghost use Rattle.ctoken.specs.Meant.{symbol_of};
ghost use Rattle.cparse_grammar.specs.NextTokens.{may_be_named, sign, word, new_name, next_word};
ghost use Rattle.cparse_cursor.specs.Names.{entity_of, names_of};
ghost use Rattle.cparse_cursor.specs.Lexemes.{tokens_of};
ghost use Rattle.cparse_cursor.specs.Outcome.{Gives};
ghost use Rattle.cparse_cursor.specs.declared.stop.Stop.TheVariants.{Syntax};

use crate::lexeme::{Kind, Lexeme};
use crate::punctuation::first_place;
use crate::scope::{Entity, Scope, find, is_reserved};
use crate::stop::Stop;
use ctoken::Symbol;
use ktree::Place;

/// The place of this word and the tokens behind it, if it comes first.
pub fn if_word<'s, 't>(
    expected: &str,
    tokens: &'s [Lexeme<'t>],
) -> Option<(Place, &'s [Lexeme<'t>])>
    ensures { option_map (λ found. tokens_of found.1.now) result
        ≡ word expected.now (tokens_of tokens.now) }
{
    let (first, rest) = tokens.split_first()?;
    match first.kind {
        Kind::Identifier(found) if found == expected => Some((first.place, rest)),
        _ => None,
    }
}

/// The tokens behind this word, which has to come first.
pub fn word<'s, 't>(
    expected: &str,
    tokens: &'s [Lexeme<'t>],
    end: Place,
) -> Result<&'s [Lexeme<'t>], Stop>
    ensures { Gives (λ rest. tokens_of rest.now) result (word expected.now (tokens_of tokens.now)) }
{
    match if_word(expected, tokens) {
        Some((_place, rest)) => Ok(rest),
        None => Err(Stop::Syntax(first_place(tokens, end))),
    }
}

/// A word, its place, and the tokens behind it.
#[derive(Clone, Copy)]
pub struct NextWord<'s, 't> {
    pub name: &'t str,
    pub place: Place,
    pub rest: &'s [Lexeme<'t>],
}

/// A word, which has to come first.
pub fn next_word<'s, 't>(tokens: &'s [Lexeme<'t>], end: Place) -> Result<NextWord<'s, 't>, Stop>
    ensures { Gives (λ found. (found.name.now, tokens_of found.rest.now)) result
        (next_word (tokens_of tokens.now)) }
{
    let Some((first, rest)) = tokens.split_first() else {
        return Err(Stop::Syntax(end));
    };
    let place = first.place;
    match first.kind {
        Kind::Identifier(name) => Ok(NextWord { name, place, rest }),
        _ => Err(Stop::Syntax(place)),
    }
}

/// A word that may be declared, which has to come first.
#[tactic(auto, using(cparse_grammar::proofs::WordLemmas::new_name_by))]
pub fn new_name<'s, 't>(tokens: &'s [Lexeme<'t>], end: Place) -> Result<NextWord<'s, 't>, Stop>
    ensures { Gives (λ found. (found.name.now, tokens_of found.rest.now)) result
        (new_name (tokens_of tokens.now)) }
{
    let found = next_word(tokens, end)?;
    if is_reserved(found.name) {
        Err(Stop::Syntax(found.place))
    } else {
        Ok(found)
    }
}

/// A symbol, its place, and the tokens behind it.
#[derive(Clone, Copy)]
pub struct NextSign<'s, 't> {
    pub symbol: Symbol,
    pub place: Place,
    pub rest: &'s [Lexeme<'t>],
}

/// A symbol, which has to come first.
pub fn next_sign<'s, 't>(tokens: &'s [Lexeme<'t>], end: Place) -> Result<NextSign<'s, 't>, Stop>
    ensures { Gives (λ found. (symbol_of found.symbol, tokens_of found.rest.now)) result
        (sign (tokens_of tokens.now)) }
{
    let Some((first, rest)) = tokens.split_first() else {
        return Err(Stop::Syntax(end));
    };
    let place = first.place;
    match first.kind {
        Kind::Punctuator(symbol) => Ok(NextSign {
            symbol,
            place,
            rest,
        }),
        _ => Err(Stop::Syntax(place)),
    }
}

/// What a name at a place stands for, if anything; a reserved word is no name.
pub fn look_up(scope: &Scope, name: &str, place: Place) -> Result<Option<Entity>, Stop>
    ensures { MatchResult result
        (λ entity. (option_map entity_of entity ≡ find (names_of scope.now) name.now)
        × (may_be_named (find (names_of scope.now) name.now) name.now ≡ true))
        (λ stop. (stop ≡ Syntax place)
        × (may_be_named (find (names_of scope.now) name.now) name.now ≡ false)) }
{
    let entity = find(scope, name);
    if entity.is_none() && is_reserved(name) {
        Err(Stop::Syntax(place))
    } else {
        Ok(entity)
    }
}
