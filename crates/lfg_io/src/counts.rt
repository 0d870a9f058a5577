ghost use Rattle.std.specs.Prelude.{◌≡◌};
ghost use Rattle.lfg_io.specs.Counts.{raised};

/// The count after one more, which stands still at the type's end.
pub(crate) fn raise(count: u64) -> u64
    ensures { result ≡ raised count }
{
    count.saturating_add(1)
}
