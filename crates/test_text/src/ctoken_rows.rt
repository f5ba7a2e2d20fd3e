//! Tokens, faults and erased lines of short texts.

use crate::outcome::no_other;
use ctoken::{Header, Symbol, Token, TokenKind, characters, cuts_are_unique, erase, scan, tokens};
use ktree::{Place, Refusal, Suffix};
use std::alloc::Global;

const KERNEL: &[u8] =
    b"uint64_t A[8];\nvoid kernel(void) {\n#pragma omp parallel for\nfor (uint64_t i = 1; i < 8; i++) { A[i] = A[i-1]; }\n}\n";

/// The place of a fault of syntax; of any other refusal, and of want of memory, it is the place 0:0.
fn syntax_place(refusal: &Refusal) -> (u32, u32) {
    match refusal {
        Refusal::Syntax(place) => (place.line, place.column),
        _ => (0, 0),
    }
}

/// The place of the fault for which a text is refused; none is the place 0:0.
fn fault(alloc: Global, text: &[u8]) -> (u32, u32) {
    match tokens(alloc, text) {
        Ok(_) => (0, 0),
        Err(refusal) => syntax_place(&refusal),
    }
}

/// How many tokens a text has that is not refused.
fn count(alloc: Global, text: &[u8]) -> Option<usize> {
    match tokens(alloc, text) {
        Ok(found) => Some(found.as_slice().len()),
        Err(_) => None,
    }
}

/// How many tokens stand in front of the first fault of a text, and where that is.
fn cut(alloc: Global, text: &[u8]) -> Option<(usize, Option<Place>)> {
    match scan(alloc, text) {
        Ok(scanned) => Some((scanned.tokens.as_slice().len(), scanned.fault)),
        Err(_) => None,
    }
}

/// The token of this number, from 0, in front of the first fault of a text.
fn token(alloc: Global, text: &[u8], number: usize) -> Option<Token> {
    match scan(alloc, text) {
        Ok(scanned) => scanned.tokens.as_slice().get(number).copied(),
        Err(_) => None,
    }
}

/// The place, the first byte and the length of the token of this number.
fn span(alloc: Global, text: &[u8], number: usize) -> Option<(Place, usize, usize)> {
    let found = token(alloc, text, number)?;
    Some((found.place, found.start, found.length))
}

/// Whether these characters are meant by a string literal.
fn means(alloc: Global, literal: &[u8], wanted: &[u8]) -> bool {
    match characters(alloc, literal) {
        Ok(meant) => meant.as_slice() == wanted,
        Err(_) => false,
    }
}

/// Whether this is what the text puts behind these bytes when its directive lines are erased.
fn puts(alloc: Global, bytes: &[u8], text: &[u8], wanted: &[u8]) -> bool {
    let mut out = Vec::new(alloc);
    if out.extend_from_slice(bytes).is_err() {
        return false;
    }
    erase(alloc, text, &mut out).is_ok() && out.as_slice() == wanted
}

#[test]
fn erases_a_directive_line(rt: HostRuntime) {
    let wanted =
        b"uint64_t A[8];\nvoid kernel(void) {\n\nfor (uint64_t i = 1; i < 8; i++) { A[i] = A[i-1]; }\n}\n";
    assert!(rt; puts(rt.alloc(), b"", KERNEL, wanted));
    assert!(rt; puts(rt.alloc(), wanted, b"\t# pragma\tomp", wanted));
}

#[test]
fn cuts_a_kernel(rt: HostRuntime) {
    assert!(rt; cut(rt.alloc(), KERNEL) == Some((42, None)));
    assert!(rt; count(rt.alloc(), KERNEL) == Some(42));
    cuts_are_unique();
}

/// Whether tokens are of these kinds, one after the other.
fn are_kinds(tokens: &[Token], kinds: &[TokenKind]) -> bool {
    for (token, kind) in tokens.iter().zip(kinds) {
        if token.kind != *kind {
            return false;
        }
    }
    tokens.len() == kinds.len()
}

/// Whether the tokens in front of the first fault of a text are of these kinds.
fn has_kinds(alloc: Global, text: &[u8], kinds: &[TokenKind]) -> bool {
    match scan(alloc, text) {
        Ok(scanned) => are_kinds(scanned.tokens.as_slice(), kinds),
        Err(_) => false,
    }
}

#[test]
fn cuts_each_kind(rt: HostRuntime) {
    let alloc = rt.alloc();
    let text = b"#include <stdio.h>\n  # pragma omp for\nx1 <<= 07";
    let fault = Place { line: 3, column: 9 };
    assert!(rt; cut(alloc, text) == Some((5, Some(fault))));
    let kinds = [
        TokenKind::Include(Header::Stdio),
        TokenKind::Line,
        TokenKind::Identifier,
        TokenKind::Punctuator(Symbol::DoubleLess),
        TokenKind::Punctuator(Symbol::EqualSign),
    ];
    assert!(rt; has_kinds(alloc, text, &kinds));
    let (line, sign) = (Place { line: 2, column: 3 }, Place { line: 3, column: 6 });
    assert!(rt; span(alloc, text, 1) == Some((line, 21, 16)));
    assert!(rt; span(alloc, text, 4) == Some((sign, 43, 1)));
}

#[test]
fn reads_literals(rt: HostRuntime) {
    let alloc = rt.alloc();
    let text = b"18446744073709551615ull 18446744073709551616 0\n";
    assert!(rt; cut(alloc, text) == Some((3, None)));
    let kinds = [
        TokenKind::IntegerConstant(Some(18446744073709551615), Suffix::Ull),
        TokenKind::IntegerConstant(None, Suffix::Bare),
        TokenKind::IntegerConstant(Some(0), Suffix::Bare),
    ];
    assert!(rt; has_kinds(alloc, text, &kinds));
}

/// Whether a text begins with a string literal for a place of a number that means these characters.
fn begins_with(alloc: Global, text: &[u8], wanted: &[u8]) -> bool {
    match token(alloc, text, 0) {
        Some(first) => {
            first.kind == TokenKind::StringLiteral(true)
                && first.start <= text.len()
                && first.length <= text.len() - first.start
                && means(alloc, first.bytes(text), wanted)
        }
        None => false,
    }
}

#[test]
fn decodes_a_string(rt: HostRuntime) {
    let alloc = rt.alloc();
    let text = b"\"n\\n\\\\\\\"100%% %\" PRIu64\n";
    assert!(rt; count(alloc, text) == Some(2));
    assert!(rt; begins_with(alloc, text, b"n\n\\\"100% "));
}

/// Texts, and where each is at fault first.
const FAULTS: [(&str, (u32, u32)); 23] = [
    ("void kernel(void) {", (1, 20)),
    ("/* a ?? */\n", (1, 6)),
    ("\n #pragma once\n", (2, 2)),
    ("#pragma ompparallel for\n", (1, 1)),
    ("#pragma omp for #\n", (1, 17)),
    ("x #pragma omp for\n", (1, 3)),
    ("uint64_t _x;\n", (1, 10)),
    ("x = 12ul;\n", (1, 7)),
    ("a /* b\n*/\n", (1, 3)),
    ("a /* \\ */\n", (1, 6)),
    ("a // \\\n", (1, 6)),
    ("\"ab\n", (1, 4)),
    ("\"a\\t\"\n", (1, 3)),
    ("\"a%d\"\n", (1, 3)),
    ("\"%\" , PRIu64\n", (1, 5)),
    ("\"%\"\n", (2, 1)),
    ("\tx = \x07 @;\n", (1, 6)),
    ("x\n#include <stdio.h>\n", (2, 1)),
    ("#include <stdio.h>\n#include<stdio.h> \n", (2, 1)),
    ("#pragma omp # \\\n", (1, 13)),
    ("\"%\" x \"%\" y\n", (1, 5)),
    ("x\n#include <stdio.h>\n#include <stdint.h>\n", (2, 1)),
    (
        "#include <stdio.h>\n#include <stdio.h>\n#include <stdio.h>\n",
        (2, 1),
    ),
];

/// The first text of a table that is at fault at another place.
fn other_fault<'t>(alloc: Global, rows: &[(&'t str, (u32, u32))]) -> Option<&'t str> {
    for (text, place) in rows {
        if fault(alloc, text.as_bytes()) != *place {
            return Some(*text);
        }
    }
    None
}

#[test]
fn refuses_at_the_first_fault(rt: HostRuntime) {
    let alloc = rt.alloc();
    assert!(rt; fault(alloc, KERNEL) == (0, 0));
    no_other(&rt, other_fault(alloc, &FAULTS));
}
