//! The limits of the language: what passes one of them is refused (K21, where nothing else is said), and the numbers that
//! bound what is run and searched.

/// The bytes of a text: a longer one is refused.
pub const TEXT_BYTES: usize = 1 << 20;

/// The statements of a text: one more is refused.
pub const STATEMENTS: u32 = 4096;

/// The brackets, blocks and statements that are open at once: one more is refused where it opens.
pub const OPEN_AT_ONCE: u32 = 64;

/// The loops that stand one in another: one more is refused at its `for`.
pub const NESTED_LOOPS: usize = 8;

/// The loops that a parallel loop is made of (OpenMP 5.2, 4.4.3): a directive that associates more is refused.
pub const ASSOCIATED_LOOPS: usize = 4;

/// The dimensions of an array: a declaration with more is refused.
pub const DIMENSIONS: usize = 4;

/// The elements of all variables of a text together: the declaration with which there are more is refused.
pub const ELEMENTS: u64 = 1 << 24;

/// The iterations of a parallel loop that is no doacross nest, by the product of the greatest counts of its loops: one with more is refused.
pub const ITERATIONS: u64 = 1 << 24;

/// The iterations of a doacross nest, counted so: one with more is refused.
pub const DOACROSS_ITERATIONS: u64 = 1 << 20;

/// The iterations of a chunk: a `schedule` with larger chunks is refused.
pub const CHUNK_ITERATIONS: u64 = 1 << 24;

/// The numbers of a bound or subscript, in absolute value: one with a larger number is refused.
pub const AFFINE_NUMBER: u64 = 1 << 32;

/// The variables of a bound or subscript: one with more is refused.
pub const AFFINE_VARIABLES: usize = 32;

/// The value of a loop's bound: a loop of which a bound may be larger is refused as one that may wrap (K07).
pub const BOUND: i128 = 1 << 32;

/// The value of a loop's variable in the dependence test and in the count of a loop's turns, in absolute value: what needs a
/// larger one is refused.
pub const LOOP_VALUE: u64 = 1 << 33;

/// The variables of a form, of which the difference of two bounds or subscripts is one: one with more is refused.
pub const FORM_VARIABLES: usize = 64;

/// The numbers of a form and of an equation of the dependence test, in absolute value: what needs a larger one is refused.
pub const EQUATION_NUMBER: u128 = 1 << 62;

/// The first iterations of a parallel loop among which two that conflict are looked for, to be named by K19.
pub const SEARCHED_ITERATIONS: u64 = 64;

/// The workers of a team: a command line that asks for more is refused.
pub const WORKERS: u64 = 64;
