// "The count left on the wire and the residue reported are two counters", and what the firmware put in is a third: each has its own type,
// so that none passes for another.
ghost use Rattle.std.specs.Prelude.{◌≡◌};
ghost use Rattle.wrapper.specs.Counters.{fallen, residue_of, risen};

// This many bytes of L have not crossed the wire yet.
#[derive(Clone, Copy)]
pub struct Left(pub u32);

// This many bytes of L were not processed, by the firmware's figure.
#[derive(Clone, Copy)]
pub struct Residue(pub u32);

// This many bytes were accepted by the two write calls since the wrapper.
#[derive(Clone, Copy)]
pub struct PutIn(pub u32);

// Gives `left` after `moved` bytes crossed the wire. It never falls below 0.
pub fn left_after(left: Left, moved: usize) -> Left
    ensures { result ≡ fallen left moved }
{
    Left((left.0 as usize).saturating_sub(moved) as u32)
}

// Gives the residue: L, which is `length`, less the firmware's `figure`, and never below 0.
pub fn residue_of(length: u32, figure: u32) -> Residue
    ensures { result ≡ residue_of length figure }
{
    Residue(length.saturating_sub(figure))
}

// Gives `putin` after `accepted` more bytes. It stops at the largest number.
pub fn put_in_after(putin: PutIn, accepted: usize) -> PutIn
    ensures { result ≡ risen putin accepted }
{
    let accepted = u32::try_from(accepted).unwrap_or(u32::MAX);
    PutIn(putin.0.saturating_add(accepted))
}
