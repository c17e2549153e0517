// Numbers, big-endian in the width of their type, and truth values.
ghost use Rattle.record_fields.specs.Numbers.{byte, half, number, long_number, truth, IsAny, IsByte, IsHalf, IsNumber, IsLong};

use crate::field::{Field, TakeError};
use cta_values::NoMemory;
use std::alloc::Global;

impl Field for u8 {
    ghost before = { byte };

    ghost fits = { IsByte };

    fn put_field(&self, out: &mut Vec<u8>) -> Result<(), NoMemory> {
        out.push(*self)?;
        Ok(())
    }

    fn take_field(_alloc: Global, bytes: &[u8]) -> Result<(u8, &[u8]), TakeError> {
        match bytes {
            [first, rest @ ..] => Ok((*first, rest)),
            [] => Err(TakeError::Bad),
        }
    }
}

impl Field for u16 {
    ghost before = { half };

    ghost fits = { IsHalf };

    fn put_field(&self, out: &mut Vec<u8>) -> Result<(), NoMemory> {
        out.extend_from_slice(&self.to_be_bytes())?;
        Ok(())
    }

    fn take_field(_alloc: Global, bytes: &[u8]) -> Result<(u16, &[u8]), TakeError> {
        if bytes.len() < 2 {
            return Err(TakeError::Bad);
        }
        let (front, rest) = bytes.split_at(2);
        let number = u16::from_be_bytes([front[0], front[1]]);
        Ok((number, rest))
    }
}

impl Field for u32 {
    ghost before = { number };

    ghost fits = { IsNumber };

    fn put_field(&self, out: &mut Vec<u8>) -> Result<(), NoMemory> {
        out.extend_from_slice(&self.to_be_bytes())?;
        Ok(())
    }

    fn take_field(_alloc: Global, bytes: &[u8]) -> Result<(u32, &[u8]), TakeError> {
        if bytes.len() < 4 {
            return Err(TakeError::Bad);
        }
        let (front, rest) = bytes.split_at(4);
        let number = u32::from_be_bytes([front[0], front[1], front[2], front[3]]);
        Ok((number, rest))
    }
}

impl Field for u64 {
    ghost before = { long_number };

    ghost fits = { IsLong };

    fn put_field(&self, out: &mut Vec<u8>) -> Result<(), NoMemory> {
        out.extend_from_slice(&self.to_be_bytes())?;
        Ok(())
    }

    fn take_field(_alloc: Global, bytes: &[u8]) -> Result<(u64, &[u8]), TakeError> {
        if bytes.len() < 8 {
            return Err(TakeError::Bad);
        }
        let (front, rest) = bytes.split_at(8);
        let number = u64::from_be_bytes([
            front[0], front[1], front[2], front[3], front[4], front[5], front[6], front[7],
        ]);
        Ok((number, rest))
    }
}

impl Field for bool {
    ghost before = { truth };

    ghost fits = { IsAny };

    fn put_field(&self, out: &mut Vec<u8>) -> Result<(), NoMemory> {
        if *self {
            out.push(1)?
        } else {
            out.push(0)?
        }
        Ok(())
    }

    fn take_field(_alloc: Global, bytes: &[u8]) -> Result<(bool, &[u8]), TakeError> {
        match bytes {
            [0, rest @ ..] => Ok((false, rest)),
            [1, rest @ ..] => Ok((true, rest)),
            _ => Err(TakeError::Bad),
        }
    }
}
