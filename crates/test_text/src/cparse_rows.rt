//! Trees and refusals of whole texts.

use cparse::parse;
use ktree::{BinaryOp, Expr, Item, Kernel, Refusal, Source, Stmt, Suffix};
use std::alloc::{AllocError, Global};
use std::process::Abort;
use std::test::*;

/// Whether an item assigns `s - 1ull - 2ull`, grouped to the left.
fn takes_one_and_then_two(item: &Item) -> bool {
    let Item::Statement(stmt) = item else {
        return false;
    };
    let Stmt::Assign(_, Source::Number(Expr::Binary(BinaryOp::Minus, left, right))) = &**stmt else {
        return false;
    };
    let first = match &**left {
        Expr::Binary(BinaryOp::Minus, s, one) => {
            matches!(**s, Expr::Object(_, _, _)) && matches!(**one, Expr::Literal(1, Suffix::Ull))
        }
        _ => false,
    };
    first && matches!(**right, Expr::Literal(2, Suffix::Ull))
}

/// How many variables and items a kernel has, and whether the first item assigns `s - 1ull - 2ull`.
fn shape(kernel: &Kernel) -> (usize, usize, bool) {
    let is_difference = match kernel.body.first() {
        Some(item) => takes_one_and_then_two(item),
        None => false,
    };
    (kernel.variables.len(), kernel.body.len(), is_difference)
}

/// The shape of a text's kernel.
fn shape_of(alloc: Global, text: &[u8]) -> Option<(usize, usize, bool)> {
    match parse(alloc, text) {
        Ok(kernel) => Some(shape(&kernel)),
        Err(_) => None,
    }
}

#[test]
fn differences_group_to_the_left(rt: HostRuntime) {
    let text = b"uint64_t s;\nvoid kernel(void)\n{\n  s = s - 1ull - 2ull;\n}\n";
    assert!(rt; shape_of(rt.alloc(), text) == Some((1, 1, true)));
}

/// The number, line and column of a refusal for numbers, names or operands.
fn number_and_place(refusal: &Refusal) -> (u8, u32, u32) {
    match refusal {
        Refusal::NumberOutOfRange(place) => (2, place.line, place.column),
        Refusal::UnknownName(place) => (3, place.line, place.column),
        Refusal::Operands(place) => (5, place.line, place.column),
        _ => (0, 0, 0),
    }
}

/// The number, line and column of what is told of a text.
fn refusal_of(alloc: Global, text: &[u8]) -> (u8, u32, u32) {
    match parse(alloc, text) {
        Ok(_) => (0, 0, 0),
        Err(refusal) => number_and_place(&refusal),
    }
}

#[test]
fn sort_of_an_argument_is_told_at_printf(rt: HostRuntime) {
    let text = b"uint64_t s;\nvoid kernel(void)\n{\n  printf(\"%\" PRIu64 \"\\n\", s + 7ull);\n}\n";
    assert!(rt; refusal_of(rt.alloc(), text) == (5, 4, 3));
}

#[test]
fn unknown_name_in_an_argument_keeps_its_place(rt: HostRuntime) {
    let text = b"uint64_t s;\nvoid kernel(void)\n{\n  printf(\"%\" PRIu64 \"\\n\", s + t);\n}\n";
    assert!(rt; refusal_of(rt.alloc(), text) == (3, 4, 31));
}

#[test]
fn local_is_no_name_behind_its_block(rt: HostRuntime) {
    let text = b"uint64_t s;\nvoid kernel(void)\n{\n  { uint64_t t = s; s = t; }\n  s = t;\n}\n";
    assert!(rt; refusal_of(rt.alloc(), text) == (3, 5, 7));
}

/// A text with this declaration in line 3 and this statement in line 6.
fn text_with(alloc: Global, declaration: &str, statement: &str) -> Result<String, AllocError> {
    format!(in alloc;
        "enum {{ E = 3 }};\nuint64_t s;\n{declaration}\nvoid kernel(void)\n{{\n{statement}\n}}\n"
    )
}

/// What is told of a text with this declaration in line 3 and this statement in line 6.
fn refusal_beside(alloc: Global, declaration: &str, statement: &str) -> (u8, u32, u32) {
    match text_with(alloc, declaration, statement) {
        Ok(text) => refusal_of(alloc, text.as_bytes()),
        Err(_) => (0, 0, 0),
    }
}

/// Ends a test where there is a row of which something else is told, and gives its number.
fn no_other(rt: &impl Abort, other: Option<usize>) {
    assert_eq!(rt; other, None);
}

/// The number of the first row of a table, from 0, whose declaration and statement are told of otherwise.
fn other_refusal(alloc: Global, rows: &[(&str, &str, (u8, u32, u32))]) -> Option<usize> {
    for (number, (declaration, statement, told)) in rows.iter().enumerate() {
        if refusal_beside(alloc, declaration, statement) != *told {
            return Some(number);
        }
    }
    None
}

#[test]
fn faults_draw_no_others(rt: HostRuntime) {
    const ROWS: &[(&str, &str, (u8, u32, u32))] = &[
        ("", "s = -(E >> 0);", (5, 6, 9)),
        ("", "s = 1 / (1 << 2);", (2, 6, 12)),
        ("", "s = s / (1 / (1 << 2));", (2, 6, 12)),
        ("", "s = 2 + (2147483648 >> 0);", (2, 6, 10)),
        ("", "s = 1 + (2147483647 + 1);", (2, 6, 21)),
        ("", "s = s / (0 + 2147483648);", (2, 6, 14)),
        ("", "s = s / (1 + t);", (3, 6, 14)),
        ("uint64_t m[E + ~1];", "", (2, 3, 16)),
        ("uint64_t m[1 / (1 << 2)];", "", (2, 3, 14)),
        ("uint64_t m[2147483647 + 1];", "", (2, 3, 23)),
    ];
    no_other(&rt, other_refusal(rt.alloc(), ROWS));
}

#[test]
fn faults_of_their_own_are_told(rt: HostRuntime) {
    const ROWS: &[(&str, &str, (u8, u32, u32))] = &[
        ("", "s = -((s < 1ull) < 2ull);", (5, 6, 5)),
        ("", "s = s << E + (s % 2);", (2, 6, 15)),
        ("", "s = 1 << (3 + s);", (5, 6, 7)),
        ("", "s += (E & E) > s;", (5, 6, 3)),
    ];
    no_other(&rt, other_refusal(rt.alloc(), ROWS));
}

#[test]
fn arguments_of_printf_are_told_once(rt: HostRuntime) {
    const ROWS: &[(&str, &str, (u8, u32, u32))] = &[
        ("", "printf(\"%\" PRIu64 \"\\n\", E >> 0);", (5, 6, 27)),
        ("", "printf(\"%\" PRIu64 \"\\n\", t + 7ull);", (5, 6, 1)),
    ];
    no_other(&rt, other_refusal(rt.alloc(), ROWS));
}
