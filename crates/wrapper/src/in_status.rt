// These constants say where the fields of a status (CSW) start, and how many bytes it has.
// BOT's table is `status_table` in specs/Status.antt.
ghost use Rattle.std.specs.Prelude.{◌≡◌};
ghost use Rattle.fields.specs.Inner.Field.{places};
ghost use Rattle.wrapper.specs.Status.{status_table};

pub const SIGNATURE: usize = 0;

pub const TAG: usize = 4;

pub const RESIDUE: usize = 8;

pub const STATUS: usize = 12;

pub const SIZE: usize = 13;

// Nothing calls this: its contract ties each constant to its row of the table, in the table's order.
fn places() -> [usize; 5]
    ensures { result ≡ places status_table }
{
    [SIGNATURE, TAG, RESIDUE, STATUS, SIZE]
}
