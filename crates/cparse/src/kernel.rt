//! All tokens of a text (C11 6.9).

ghost use Rattle.std.specs.Prelude.{◌≤◌, ◌^◌, length, IfOk};
ghost use Rattle.cparse_grammar.specs.TextReader.{kernel};
ghost use Rattle.cparse.specs.DeclarationViews.{whole_of};
ghost use Rattle.cparse_cursor.specs.Lexemes.{tokens_of};
ghost use Rattle.cparse_cursor.specs.Outcome.{Gives};

use crate::declarations::{FileScope, declarations};
use crate::extent::too_many;
use crate::opening::{at_end, behind_headers, kernel_opening};
use cparse_cursor::context::Setting;
use cparse_cursor::lexeme::Lexeme;
use cparse_cursor::punctuation::punctuator;
use cparse_cursor::scope::empty;
use cparse_cursor::stop::{Fault, Stop, earlier};
use cparse_phrase::tally::Tally;
use cparse_phrase::told::Told;
use cparse_stmt::statement::items;
use ctoken::Symbol;
use ktree::Kernel;
use ktree::limits::{OPEN_AT_ONCE, STATEMENTS};

/// A text's tree, and the first fault in it.
#[derive(Drop)]
pub struct Whole {
    pub kernel: Kernel,
    pub fault: Option<Fault>,
}

/// All tokens of a text, of which there are at most 2^20: include lines, declarations and the kernel's block.
#[tactic(auto, unfolding(cparse_grammar::specs::TextReader::kernel))]
pub fn kernel<'s, 't>(setting: Setting, tokens: &'s [Lexeme<'t>]) -> Result<Whole, Stop>
    requires { length tokens.now ≤ 2 ^ 20 }
    ensures whole { Gives whole_of result (kernel (tokens_of tokens.now)) }
    ensures few { IfOk result (λ w. length w.kernel.variables.items ≤ 2 ^ 20) }
{
    let Setting { alloc, end } = setting;
    let mut scope = empty(alloc);
    let declared = declarations(setting, &mut scope, behind_headers(tokens))?;
    let FileScope {
        constants,
        variables,
        fault: declared_fault,
        rest,
    } = declared;
    let inner = kernel_opening(rest, end)?;
    let tally = Tally {
        next: variables.len() as u32,
        left: STATEMENTS,
    };
    let Told {
        tree: body,
        fault: body_fault,
        tally: _,
        rest,
    } = items(setting, &mut scope, OPEN_AT_ONCE - 1, tally, inner)?;
    let behind = punctuator(Symbol::CloseBrace, rest, end)?;
    at_end(behind, end)?;
    let fault = earlier(declared_fault, earlier(body_fault, too_many(&variables)));
    Ok(Whole {
        kernel: Kernel {
            constants,
            variables,
            body,
        },
        fault,
    })
}
