// Values one behind the other, and a variant with the values that it has.
ghost use Rattle.std.specs.Prelude.{◌≡◌, ◌++◌, ◌∷◌, List, ℕ, OnOk};

use crate::field::{Field, TakeError};
use cta_values::NoMemory;
use std::alloc::Global;

/// Adds the place of a variant that has no value, from 0. `NoMemory` changes nothing.
pub fn put_none(place: u8, out: &mut Vec<u8>) -> Result<(), NoMemory>
    ensures { OnOk result ((rest : List ℕ) → out.new.items ++ rest ≡ out.old.items ++ place ∷ rest) }
{
    out.push(place)?;
    Ok(())
}

/// Adds the place of a variant, from 0, and the bytes of its value. `NoMemory` leaves some of them there.
pub fn put_one<A: Field>(place: u8, a: &A, out: &mut Vec<u8>) -> Result<(), NoMemory>
    ensures fits { OnOk result (A.fits a.now) }
    ensures bytes { OnOk result ((rest : List ℕ) → out.new.items ++ rest ≡ out.old.items ++ place ∷ A.before a.now rest) }
{
    out.push(place)?;
    a.put_field(out)
}

/// The same of a variant with two values.
pub fn put_two<A: Field, B: Field>(
    place: u8,
    a: &A,
    b: &B,
    out: &mut Vec<u8>,
) -> Result<(), NoMemory>
    ensures fits { OnOk result (A.fits a.now × B.fits b.now) }
    ensures bytes { OnOk result ((rest : List ℕ) → out.new.items ++ rest ≡ out.old.items ++ place ∷ A.before a.now (B.before b.now rest)) }
{
    put_one(place, a, out)?;
    b.put_field(out)
}

/// The same of a variant with three values.
pub fn put_three<A: Field, B: Field, C: Field>(
    place: u8,
    a: &A,
    b: &B,
    c: &C,
    out: &mut Vec<u8>,
) -> Result<(), NoMemory>
    ensures fits { OnOk result (A.fits a.now × B.fits b.now × C.fits c.now) }
    ensures bytes { OnOk result ((rest : List ℕ) → out.new.items ++ rest ≡ out.old.items ++ place ∷ A.before a.now (B.before b.now (C.before c.now rest))) }
{
    put_two(place, a, b, out)?;
    c.put_field(out)
}

/// The same of a variant with four values.
pub fn put_four<A: Field, B: Field, C: Field, D: Field>(
    place: u8,
    a: &A,
    b: &B,
    c: &C,
    d: &D,
    out: &mut Vec<u8>,
) -> Result<(), NoMemory>
    ensures fits { OnOk result (A.fits a.now × B.fits b.now × C.fits c.now × D.fits d.now) }
    ensures bytes { OnOk result ((rest : List ℕ) → out.new.items ++ rest ≡ out.old.items ++ place ∷ A.before a.now (B.before b.now (C.before c.now (D.before d.now rest)))) }
{
    put_three(place, a, b, c, out)?;
    d.put_field(out)
}

impl<A: Field, B: Field> Field for (A, B) {
    ghost before = { λ x rest. A.before x.0 (B.before x.1 rest) };

    ghost fits = { λ x. A.fits x.0 × B.fits x.1 };

    fn put_field(&self, out: &mut Vec<u8>) -> Result<(), NoMemory> {
        self.0.put_field(out)?;
        self.1.put_field(out)
    }

    fn take_field(alloc: Global, bytes: &[u8]) -> Result<((A, B), &[u8]), TakeError> {
        let (a, rest) = A::take_field(alloc, bytes)?;
        let (b, rest) = B::take_field(alloc, rest)?;
        Ok(((a, b), rest))
    }
}

impl<A: Field, B: Field, C: Field> Field for (A, B, C) {
    ghost before = { λ x rest. A.before x.0 (B.before x.1 (C.before x.2 rest)) };

    ghost fits = { λ x. A.fits x.0 × B.fits x.1 × C.fits x.2 };

    fn put_field(&self, out: &mut Vec<u8>) -> Result<(), NoMemory> {
        self.0.put_field(out)?;
        self.1.put_field(out)?;
        self.2.put_field(out)
    }

    fn take_field(alloc: Global, bytes: &[u8]) -> Result<((A, B, C), &[u8]), TakeError> {
        let (a, rest) = A::take_field(alloc, bytes)?;
        let (b, rest) = B::take_field(alloc, rest)?;
        let (c, rest) = C::take_field(alloc, rest)?;
        Ok(((a, b, c), rest))
    }
}

impl<A: Field, B: Field, C: Field, D: Field> Field for (A, B, C, D) {
    ghost before = { λ x rest. A.before x.0 (B.before x.1 (C.before x.2 (D.before x.3 rest))) };

    ghost fits = { λ x. A.fits x.0 × B.fits x.1 × C.fits x.2 × D.fits x.3 };

    fn put_field(&self, out: &mut Vec<u8>) -> Result<(), NoMemory> {
        self.0.put_field(out)?;
        self.1.put_field(out)?;
        self.2.put_field(out)?;
        self.3.put_field(out)
    }

    fn take_field(alloc: Global, bytes: &[u8]) -> Result<((A, B, C, D), &[u8]), TakeError> {
        let (a, rest) = A::take_field(alloc, bytes)?;
        let (b, rest) = B::take_field(alloc, rest)?;
        let (c, rest) = C::take_field(alloc, rest)?;
        let (d, rest) = D::take_field(alloc, rest)?;
        Ok(((a, b, c, d), rest))
    }
}
