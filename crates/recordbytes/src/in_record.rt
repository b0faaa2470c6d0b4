// These constants say where the fields of a record stand, and how many bytes it has. The table is `record_table` in specs/Layout.antt.
ghost use Rattle.std.specs.Prelude.{◌≡◌};
ghost use Rattle.fields.specs.Inner.Field.{places};
ghost use Rattle.recordbytes.specs.Layout.{record_table};

pub const PACKET_SIZE: usize = 0;

pub const MAX_LUN: usize = 1;

pub const STATE: usize = 2;

pub const STATUS_PRESENT: usize = 3;

pub const IO_LENGTH: usize = 4;

pub const READ_MARK: usize = 8;

pub const WRITE_MARK: usize = 12;

pub const LEFT: usize = 16;

pub const RESIDUE: usize = 20;

pub const STATUS: usize = 24;

pub const DIRECTION: usize = 25;

pub const LUN: usize = 26;

pub const BLOCK_LENGTH: usize = 27;

pub const TAG: usize = 28;

pub const DECLARED: usize = 32;

pub const BLOCK: usize = 36;

pub const PUT_IN: usize = 52;

pub const SIZE: usize = 56;

// Nothing calls this function. Its contract ties each constant to its row of the table, in the table's order.
fn places() -> [usize; 18]
    ensures { result ≡ places record_table }
{
    [
        PACKET_SIZE,
        MAX_LUN,
        STATE,
        STATUS_PRESENT,
        IO_LENGTH,
        READ_MARK,
        WRITE_MARK,
        LEFT,
        RESIDUE,
        STATUS,
        DIRECTION,
        LUN,
        BLOCK_LENGTH,
        TAG,
        DECLARED,
        BLOCK,
        PUT_IN,
        SIZE,
    ]
}
