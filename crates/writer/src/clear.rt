// Clearing of the work buffer.
ghost use Rattle.std.specs.Prelude.{◌≡◌};
ghost use Rattle.writer.specs.Written.{zeros};

// Every byte to zero.
pub fn clear(work: &mut [u8])
    ensures { work.new ≡ zeros work.old }
{
    work.fill(0);
}
