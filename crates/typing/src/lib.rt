// Typing: the types of expressions, patterns, outputs and formulas of an accepted document, with their causes.
//
// `specs/` says what is right, over the document's content; `proofs/` says why the code gives it.
#![tactic(auto)]

mod args;
mod binds;
mod block;
mod cause;
mod entries;
mod equality;
mod event;
mod expr;
mod field;
mod fill;
mod first;
mod fits;
mod formula;
mod guard;
mod lanes;
mod names;
mod number;
mod output;
mod path;
mod pattern;
mod quick;
mod roll;
mod rules;
mod seen;
mod segments;
mod side;
mod table;
mod temporal;
mod ty;
mod version;

pub use args::arg_compatible;
pub use binds::null_at;
pub use block::{fill_block, find, weave};
pub use cause::{Bindings, Blame, Cause, Typed, What, Within};
pub use event::validate_event_pattern;
pub use expr::{after_expr, type_expr};
pub use fill::{after_head, after_tag, fill_table, store, word};
pub use first::{first_enum, first_variant, first_variants};
pub use formula::{after_formula, bounded_always_error};
pub use guard::{Clash, contradictory_equalities, is_literal_false};
pub use lanes::{lane_add, lane_find, lane_of, print_bytes};
pub use names::{same, same_name};
pub use number::{blame_number, cause_number, fit_number};
pub use output::validate_output_expr;
pub use path::resolve_path;
pub use pattern::pattern_expr_compatible;
pub use roll::{fill_outputs, outgrows};
pub use rules::{binary_type, compatible_with, unary_type};
pub use segments::fill_enums;
pub use table::{after, has_name};
pub use temporal::type_formula;
pub use ty::{Bits, Ty, is_bool};
pub use version::is_valid_version_format;
