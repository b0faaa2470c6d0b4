// These constants say where the fields of a wrapper (CBW) start, and how many bytes it has.
// BOT's table is `wrapper_table` in specs/Wrapper.antt.
ghost use Rattle.std.specs.Prelude.{◌≡◌};
ghost use Rattle.fields.specs.Inner.Field.{places};
ghost use Rattle.wrapper.specs.Wrapper.{wrapper_table};

pub const SIGNATURE: usize = 0;

pub const TAG: usize = 4;

pub const LENGTH: usize = 8;

pub const FLAGS: usize = 12;

pub const LUN: usize = 13;

pub const BLOCK_LENGTH: usize = 14;

pub const BLOCK: usize = 15;

pub const SIZE: usize = 31;

// Nothing calls this: its contract ties each constant to its row of the table, in the table's order.
fn places() -> [usize; 8]
    ensures { result ≡ places wrapper_table }
{
    [
        SIGNATURE,
        TAG,
        LENGTH,
        FLAGS,
        LUN,
        BLOCK_LENGTH,
        BLOCK,
        SIZE,
    ]
}
