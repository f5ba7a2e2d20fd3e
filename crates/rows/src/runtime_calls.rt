//! Kernels and their listings: the calls of LLVM's OpenMP runtime that stand for their parallel loops.

use crate::outcome::no_other;
use listing::add_listing;
use ompk::{Checked, check};
use std::alloc::{AllocError, Global};

/// The statements of a kernel, and what is listed of it.
#[derive(Clone, Copy)]
struct Row {
    body: &'static str,
    listing: &'static str,
}

/// The text with this body.
fn text(alloc: Global, body: &str) -> Result<String, AllocError> {
    format!(in alloc; "uint64_t A[8];\nuint64_t B[4][4];\nvoid kernel(void) {{\n{body}\n}}\n")
}

/// Whether just this is added to lines that are there.
fn is_added(alloc: Global, kernel: &Checked, listing: &str) -> bool {
    let mut lines = Vec::new(alloc);
    lines.extend_from_slice(b"0.0\n").is_ok()
        && add_listing(kernel, &mut lines).is_ok()
        && lines.as_slice().strip_prefix(b"0.0\n") == Some(listing.as_bytes())
}

/// Whether this is the listing of a text.
fn is_listed(alloc: Global, text: &[u8], listing: &str) -> bool {
    match check(alloc, text) {
        Ok(kernel) => is_added(alloc, &kernel, listing),
        Err(_refusal) => false,
    }
}

/// Whether a row's listing is that of its kernel.
fn holds(alloc: Global, row: Row) -> bool {
    match text(alloc, row.body) {
        Ok(text) => is_listed(alloc, text.as_bytes(), row.listing),
        Err(_error) => false,
    }
}

/// The first body of some rows of which something else is listed.
fn first_other(alloc: Global, rows: &[Row]) -> Option<&'static str> {
    for row in rows {
        if !holds(alloc, *row) {
            return Some(row.body);
        }
    }
    None
}

#[test]
fn schedules_are_listed(rt: HostRuntime) {
    const ROWS: &[Row] = &[
        Row {
            body: "#pragma omp parallel for\nfor (uint64_t i = 0; i < 8; i++) { A[i] = i; }",
            listing: "1.0 __kmpc_fork_call\n1.1 __kmpc_for_static_init_8u static\n1.1 __kmpc_for_static_fini\n1.1 __kmpc_barrier\n",
        },
        Row {
            body: "#pragma omp parallel for schedule(static)\nfor (uint64_t i = 0; i < 8; i++) { A[i] = i; }",
            listing: "1.0 __kmpc_fork_call\n1.1 __kmpc_for_static_init_8u static\n1.1 __kmpc_for_static_fini\n1.1 __kmpc_barrier\n",
        },
        Row {
            body: "#pragma omp parallel for schedule(static, 4)\nfor (uint64_t i = 0; i < 8; i++) { A[i] = i; }",
            listing: "1.0 __kmpc_fork_call\n1.1 __kmpc_for_static_init_8u static,4\n1.1 __kmpc_for_static_fini\n1.1 __kmpc_barrier\n",
        },
        Row {
            body: "#pragma omp parallel for schedule(dynamic, 3)\nfor (uint64_t i = 0; i < 8; i++) { A[i] = i; }",
            listing: "1.0 __kmpc_fork_call\n1.1 __kmpc_dispatch_init_8u dynamic,3\n1.1 __kmpc_dispatch_next_8u\n1.1 __kmpc_barrier\n",
        },
        Row {
            body: "#pragma omp parallel for schedule(guided)\nfor (uint64_t i = 0; i < 8; i++) { A[i] = i; }",
            listing: "1.0 __kmpc_fork_call\n1.1 __kmpc_dispatch_init_8u guided,1\n1.1 __kmpc_dispatch_next_8u\n1.1 __kmpc_barrier\n",
        },
        Row {
            body: "#pragma omp parallel for schedule(runtime)\nfor (uint64_t i = 0; i < 8; i++) { A[i] = i; }",
            listing: "1.0 __kmpc_fork_call\n1.1 __kmpc_dispatch_init_8u runtime\n1.1 __kmpc_dispatch_next_8u\n1.1 __kmpc_barrier\n",
        },
        Row {
            body: "#pragma omp parallel for schedule(auto)\nfor (uint64_t i = 0; i < 8; i++) { A[i] = i; }",
            listing: "1.0 __kmpc_fork_call\n1.1 __kmpc_for_static_init_8u static\n1.1 __kmpc_for_static_fini\n1.1 __kmpc_barrier\n",
        },
    ];
    no_other(&rt, first_other(rt.alloc(), ROWS));
}

#[test]
fn reductions_are_listed(rt: HostRuntime) {
    const ROWS: &[Row] = &[
        Row {
            body: "uint64_t s = 0; uint64_t m = 0;\n#pragma omp parallel for reduction(+: s) reduction(max: m)\nfor (uint64_t i = 0; i < 8; i++) { s += A[i]; if (A[i] > m) m = A[i]; }",
            listing: "1.0 __kmpc_fork_call\n1.1 __kmpc_for_static_init_8u static\n1.1 __kmpc_for_static_fini\n1.1 __kmpc_reduce +:s max:m\n1.1 __kmpc_end_reduce\n1.1 __kmpc_barrier\n",
        },
        Row {
            body: "uint64_t s = 0; uint64_t m = 1; uint64_t x;\n#pragma omp parallel\n{\n#pragma omp for nowait schedule(dynamic, 2) reduction(&&: m, s) lastprivate(x)\nfor (uint64_t i = 0; i < 8; i++) { x = i; m = m && A[i]; s = s && x; }\n#pragma omp for\nfor (uint64_t i = 0; i < 8; i++) { A[i] = i; }\n}",
            listing: "1.0 __kmpc_fork_call\n1.1 __kmpc_dispatch_init_8u dynamic,2\n1.1 __kmpc_dispatch_next_8u\n1.1 __kmpc_reduce &&:m &&:s\n1.1 __kmpc_end_reduce\n1.1 __kmpc_barrier\n1.2 __kmpc_for_static_init_8u static\n1.2 __kmpc_for_static_fini\n1.2 __kmpc_barrier\n",
        },
    ];
    no_other(&rt, first_other(rt.alloc(), ROWS));
}

#[test]
fn both_passes_of_a_scan_are_listed(rt: HostRuntime) {
    const ROWS: &[Row] = &[Row {
        body: "uint64_t s = 0;\n#pragma omp parallel for reduction(inscan, +: s)\nfor (uint64_t i = 0; i < 8; i++) { s += i;\n#pragma omp scan inclusive(s)\nA[i] = s; }",
        listing: "1.0 __kmpc_fork_call\n1.1 __kmpc_for_static_init_8u static\n1.1 __kmpc_for_static_fini\n1.1 __kmpc_barrier\n1.1 __kmpc_for_static_init_8u static\n1.1 __kmpc_for_static_fini\n1.1 __kmpc_barrier\n",
    }];
    no_other(&rt, first_other(rt.alloc(), ROWS));
}

#[test]
fn regions_of_several_loops_are_listed(rt: HostRuntime) {
    const ROWS: &[Row] = &[
        Row {
            body: "#pragma omp parallel\n{\n#pragma omp for schedule(guided, 2)\nfor (uint64_t i = 0; i < 8; i++) { A[i] = i; }\n#pragma omp for nowait\nfor (uint64_t i = 0; i < 8; i++) { A[i] = A[i] + 1; }\n}",
            listing: "1.0 __kmpc_fork_call\n1.1 __kmpc_dispatch_init_8u guided,2\n1.1 __kmpc_dispatch_next_8u\n1.1 __kmpc_barrier\n1.2 __kmpc_for_static_init_8u static\n1.2 __kmpc_for_static_fini\n1.2 __kmpc_barrier\n",
        },
        Row {
            body: "#pragma omp parallel for\nfor (uint64_t i = 0; i < 8; i++) { A[i] = i; }\nif (A[0] < 1)\n{\n#pragma omp parallel shared(A)\n{\n#pragma omp for schedule(dynamic)\nfor (uint64_t i = 0; i < 8; i++) { A[i] = i; }\n}\n}\n#pragma omp parallel for schedule(static, 4)\nfor (uint64_t i = 0; i < 8; i++) { A[i] = i; }",
            listing: "1.0 __kmpc_fork_call\n1.1 __kmpc_for_static_init_8u static\n1.1 __kmpc_for_static_fini\n1.1 __kmpc_barrier\n2.0 __kmpc_fork_call\n2.1 __kmpc_dispatch_init_8u dynamic,1\n2.1 __kmpc_dispatch_next_8u\n2.1 __kmpc_barrier\n3.0 __kmpc_fork_call\n3.1 __kmpc_for_static_init_8u static,4\n3.1 __kmpc_for_static_fini\n3.1 __kmpc_barrier\n",
        },
    ];
    no_other(&rt, first_other(rt.alloc(), ROWS));
}

#[test]
fn regions_are_numbered_in_the_order_of_the_text(rt: HostRuntime) {
    const ROWS: &[Row] = &[
        Row {
            body: "A[0] = 1;",
            listing: "",
        },
        Row {
            body: "for (uint64_t t = 0; t < 3; t++) {\n#pragma omp parallel for schedule(dynamic)\nfor (uint64_t i = 0; i < 8; i++) { A[i] = i; }\n}\n#pragma omp parallel for collapse(2) schedule(static, 16777216)\nfor (uint64_t i = 0; i < 4; i++) for (uint64_t j = 0; j < 4; j++) { B[i][j] = i; }",
            listing: "1.0 __kmpc_fork_call\n1.1 __kmpc_dispatch_init_8u dynamic,1\n1.1 __kmpc_dispatch_next_8u\n1.1 __kmpc_barrier\n2.0 __kmpc_fork_call\n2.1 __kmpc_for_static_init_8u static,16777216\n2.1 __kmpc_for_static_fini\n2.1 __kmpc_barrier\n",
        },
    ];
    no_other(&rt, first_other(rt.alloc(), ROWS));
}

#[test]
fn doacross_nests_are_listed(rt: HostRuntime) {
    const ROWS: &[Row] = &[
        Row {
            body: "#pragma omp parallel for ordered(2)\nfor (uint64_t i = 1; i < 4; i++) for (uint64_t j = 1; j < 4; j++) {\n#pragma omp ordered doacross(sink: i-1, j)\n#pragma omp ordered doacross(sink: i, j-1)\nB[i][j] = B[i-1][j] + B[i][j-1];\n#pragma omp ordered doacross(source:)\n}",
            listing: "1.0 __kmpc_fork_call\n1.1 __kmpc_doacross_init 2\n1.1 __kmpc_for_static_init_8u static\n1.1 __kmpc_doacross_wait -1,0\n1.1 __kmpc_doacross_wait 0,-1\n1.1 __kmpc_doacross_post\n1.1 __kmpc_for_static_fini\n1.1 __kmpc_doacross_fini\n1.1 __kmpc_barrier\n",
        },
        Row {
            body: "#pragma omp parallel\n{\n#pragma omp for\nfor (uint64_t i = 0; i < 8; i++) { A[i] = i; }\n#pragma omp for ordered(1) schedule(dynamic, 2)\nfor (uint64_t i = 2; i < 8; i++) {\n#pragma omp ordered doacross(sink: i-2)\n#pragma omp ordered doacross(sink: i-6)\nA[i] = A[i-2] + 1;\n#pragma omp ordered doacross(source:)\n}\n}",
            listing: "1.0 __kmpc_fork_call\n1.1 __kmpc_for_static_init_8u static\n1.1 __kmpc_for_static_fini\n1.1 __kmpc_barrier\n1.2 __kmpc_doacross_init 1\n1.2 __kmpc_dispatch_init_8u dynamic,2\n1.2 __kmpc_dispatch_next_8u\n1.2 __kmpc_doacross_wait -2\n1.2 __kmpc_doacross_wait -6\n1.2 __kmpc_doacross_post\n1.2 __kmpc_doacross_fini\n1.2 __kmpc_barrier\n",
        },
    ];
    no_other(&rt, first_other(rt.alloc(), ROWS));
}
