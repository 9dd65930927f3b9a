// Whether a literal fits a width.
ghost use Rattle.std.specs.Prelude.{◌≡◌};
ghost use Rattle.typing.specs.Patterns.{fits};

pub(crate) fn fits(value: u64, width: u32) -> bool
    ensures { result ≡ fits value width }
{
    if 64 <= width {
        return true;
    }
    value < (1u64 << width)
}
