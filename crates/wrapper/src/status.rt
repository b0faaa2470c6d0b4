// The status (CSW) says how a command went, and has 13 bytes.
ghost use Rattle.std.specs.Prelude.{◌≡◌, ◌+◌, ◌≤◌, length, take, set};
ghost use Rattle.std.proofs.lemmas.List.Edits.{sets};
ghost use Rattle.fields.specs.Field.{digits};
ghost use Rattle.fields.specs.Overlay.{overlay};
ghost use Rattle.wrapper.specs.Status.{answer_of, status_call, status_number, status_of_number, status_bytes};

use crate::counters::Residue;
use crate::in_status;

// The bytes 55 53 42 53 are this little-endian number.
pub const SIGNED: u32 = 0x53425355;

// A command ends in one of these three ways.
#[derive(Clone, Copy)]
pub enum CommandStatus {
    Passed = 0,
    Failed = 1,
    PhaseError = 2,
}

// Gives the status that `byte` stands for. A byte above 2 is refused.
pub fn status_of(byte: u8) -> Option<CommandStatus>
    ensures { answer_of result ≡ status_call byte }
{
    match byte {
        0 => Some(CommandStatus::Passed),
        1 => Some(CommandStatus::Failed),
        2 => Some(CommandStatus::PhaseError),
        _ => None,
    }
}

// Gives the byte that stands for `status`.
pub fn status_number(status: CommandStatus) -> u8
    ensures { result ≡ status_number status }
{
    status as u8
}

// Gives the status with this `number`. Numbers above 2 belong to no status, and are taken for a phase error.
pub fn status_of_number(number: u8) -> CommandStatus
    ensures { result ≡ status_of_number number }
{
    match number {
        0 => CommandStatus::Passed,
        1 => CommandStatus::Failed,
        _ => CommandStatus::PhaseError,
    }
}

// Stores `b` at index `at` if `m` has that index.
fn store(m: &mut [u8], at: usize, b: u8)
    ensures { m.new ≡ set m.old at b }
{
    if at < m.len() {
        m[at] = b;
    }
}

// Stores the 4 bytes of `n` from index `at` of a status on, the least significant byte first, as far as `m` has these indices.
fn store_le32(m: &mut [u8], at: usize, n: u32)
    requires { at + 4 ≤ 13 }
    ensures { m.new ≡ sets m.old at (digits 4 n) }
{
    let [first, second, third, fourth] = n.to_le_bytes();
    store(m, at, first);
    store(m, at + 1, second);
    store(m, at + 2, third);
    store(m, at + 3, fourth);
}

// Writes a status with this `tag`, `residue` and `status` to the front of `m`, as it goes over the wire. If `m` is shorter than a status,
// what fits is written. Each byte goes straight to its place: a recorder's interrupt stack has no room for an array of them.
pub fn put_status(m: &mut [u8], tag: u32, residue: Residue, status: CommandStatus)
    ensures { m.new ≡ overlay m.old 0 (take (length m.old) (status_bytes tag residue (status_number status))) }
{
    store_le32(m, in_status::SIGNATURE, SIGNED);
    store_le32(m, in_status::TAG, tag);
    store_le32(m, in_status::RESIDUE, residue.0);
    store(m, in_status::STATUS, status_number(status));
}

// Gives the bytes of a status with this `tag`, `residue` and `status`, as they go over the wire.
pub fn status_bytes(tag: u32, residue: Residue, status: CommandStatus) -> [u8; in_status::SIZE]
    ensures { result ≡ status_bytes tag residue (status_number status) }
{
    let mut m = [0u8; in_status::SIZE];
    put_status(&mut m, tag, residue, status);
    m
}
