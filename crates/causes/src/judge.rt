// What the typing layer says of one item, as a number: document 01's number of its cause, and 0 where nothing is wrong.
use reading::text_at;
use typing::Typed;

// What an item of a step is. The first four are a module's lists; a pattern's bindings hold for the guards, sets and emits that
// follow it.
#[derive(Clone, Copy, Debug, PartialEq, Eq)]
pub(crate) enum Kind {
    Enums,
    Vars,
    Events,
    Outputs,
    Init,
    Pattern,
    Guard,
    Set,
    Emit,
    OnErrorEmit,
    Property,
    Assumption,
    // Of these 1 is due where the original gives the site, else 0: a guard that has a type, a version string, a formula's bounds,
    // and of a guard that it is false and that it contradicts itself.
    NoBool,
    Version,
    Bound,
    AlwaysFalse,
    Contradiction,
}

// The kinds by their numbers in a record.
const KINDS: [Kind; 17] = [
    Kind::Enums,
    Kind::Vars,
    Kind::Events,
    Kind::Outputs,
    Kind::Init,
    Kind::Pattern,
    Kind::Guard,
    Kind::Set,
    Kind::Emit,
    Kind::OnErrorEmit,
    Kind::Property,
    Kind::Assumption,
    Kind::NoBool,
    Kind::Version,
    Kind::Bound,
    Kind::AlwaysFalse,
    Kind::Contradiction,
];

impl Kind {
    pub(crate) fn of(number: u8) -> Option<Kind> {
        KINDS.get(usize::from(number)).copied()
    }

    // Whether the item is in the scope of a pattern's bindings.
    pub(crate) fn sees_bindings(self) -> bool {
        matches!(self, Kind::Guard | Kind::Set | Kind::Emit | Kind::NoBool)
    }
}

// A type has no cause.
fn typed_number(doc: &[u8], t: Typed) -> u32 {
    match t {
        Ok(_) => 0,
        Err(cause) => typing::cause_number(doc, cause),
    }
}

// Whether an expression has a type that is not bool.
fn is_no_bool(doc: &[u8], t: Typed) -> bool {
    t.is_ok_and(|(ty, _)| !typing::is_bool(doc, ty))
}

// Whether a guard contradicts itself.
fn contradicts(doc: &[u8], at: usize) -> bool {
    let end = typing::after_expr(doc, at, 32);
    typing::contradictory_equalities(doc, at, end, 32).is_some()
}

// The item of the kind at a place, by the tables of outputs, of the names it sees and of the enums; 255 for what is judged otherwise.
pub(crate) fn number_of(
    doc: &[u8],
    kind: Kind,
    at: usize,
    outputs: &[usize],
    names: &[usize],
    enums: &[usize],
) -> u32 {
    match kind {
        Kind::Init | Kind::Guard | Kind::Set => {
            typed_number(doc, typing::type_expr(doc, at, 32, names, enums))
        }
        Kind::Emit | Kind::OnErrorEmit => typing::blame_number(
            doc,
            typing::validate_output_expr(doc, at, outputs, names, enums),
        ),
        Kind::Property | Kind::Assumption => {
            typing::fit_number(doc, typing::type_formula(doc, at, 32, names, enums))
        }
        Kind::NoBool => is_no_bool(doc, typing::type_expr(doc, at, 32, names, enums)).into(),
        Kind::Version => (!typing::is_valid_version_format(text_at(doc, at))).into(),
        Kind::Bound => typing::bounded_always_error(doc, at, 32).into(),
        Kind::AlwaysFalse => typing::is_literal_false(doc, at, 32).into(),
        Kind::Contradiction => contradicts(doc, at).into(),
        Kind::Enums | Kind::Vars | Kind::Events | Kind::Outputs | Kind::Pattern => 255,
    }
}
