// The bytes of a record, copied.
ghost use Rattle.std.specs.Prelude.{◌≡◌, ◌≤◌, length, take};
ghost use Rattle.model.specs.Record.{record_size, over};

// The first 32,768 bytes of one buffer over those of another.
pub fn copy(from: &[u8], to: &mut [u8])
    requires { (record_size ≤ length from.now) × (record_size ≤ length to.old) }
    ensures { to.new ≡ over (take record_size from.now) to.old }
{
    to[..32768].copy_from_slice(&from[..32768]);
}
