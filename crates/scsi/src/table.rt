// Opcodes and shortest block lengths stand in this constant table.
ghost use Rattle.std.specs.Prelude.{◌≡◌};
ghost use Rattle.scsi.specs.Decoding.{rows, lists, opcode_counts, is_listed};

// A row has an opcode, and the length of its shortest block.
#[derive(Clone, Copy)]
pub(crate) struct Row(u8, u8);

// These are document 01's twelve rows, in its order.
const ROWS: [Row; 12] = [
    Row(0x00, 1),
    Row(0x03, 5),
    Row(0x12, 5),
    Row(0x1A, 5),
    Row(0x23, 9),
    Row(0x25, 1),
    Row(0x28, 9),
    Row(0x2A, 9),
    Row(0x5A, 9),
    Row(0x88, 14),
    Row(0x8A, 14),
    Row(0x9E, 14),
];

// Tests whether a row has `opcode`, and a block of `n` bytes is at least as long as this row says.
fn in_table(opcode: u8, n: usize) -> bool
    ensures { result ≡ lists rows opcode n }
{
    for row in ROWS {
        if row.0 == opcode {
            return row.1 as usize <= n;
        }
    }
    false
}

// Tests whether `opcode` counts: 88 and 8A do so only if `extended` is true.
#[tactic(auto, unfolding(crate::specs::Decoding::opcode_counts))]
fn opcode_counts(opcode: u8, extended: bool) -> bool
    ensures { result ≡ opcode_counts extended opcode }
{
    extended || (opcode != 0x88 && opcode != 0x8A)
}

// Tests whether a block of `n` bytes with this `opcode` is one of the listed commands, where `extended` says whether 88 and 8A count.
#[tactic(auto, unfolding(crate::specs::Decoding::is_listed))]
pub(crate) fn listed(opcode: u8, n: usize, extended: bool) -> bool
    ensures { result ≡ is_listed extended opcode n }
{
    opcode_counts(opcode, extended) && in_table(opcode, n)
}
