//! Writing the header of the authentication and fragmentation layer.
ghost use Rattle.std.specs.Prelude.{◌≡◌, ◌+◌, ◌≤◌, ◌<◌, ◌^◌, ◌++◌, ℕ, List, length, take, drop, Ok, IfSome};
ghost use Rattle.std.specs.Int.{w16, w32, to_le_bytes};
ghost use Rattle.afl_layer.specs.Fields.{where_so, fcl_of, field_bytes, one_byte, fields_bytes};
ghost use Rattle.afl_layer.specs.Header.{afl_bytes, Fits, IsPlaced, afl_at};

use crate::fields::{KI, MAC, MCL, MCR, ML, MORE};
use crate::header::{AFL_CI, Afl};
use lists::put;

// A bit of FCL, where it is set.
fn bit_where(set: bool, bit: u16) -> u16
    ensures is { result ≡ where_so set bit }
    ensures most { result ≤ bit }
{
    if set { bit } else { 0 }
}

// FCL of the header.
#[tactic(auto, unfolding(crate::specs::Fields::fcl_of))]
fn fcl_for(afl: &Afl) -> u16
    ensures is { result ≡ fcl_of afl.now }
    ensures fid { afl.now.fid < 2 ^ 8 }
{
    let low = bit_where(afl.mac.is_some(), 1 << MAC)
        + (bit_where(afl.ki.is_some(), 1 << KI) + u16::from(afl.fid));
    let middle = bit_where(afl.ml.is_some(), 1 << ML)
        + (bit_where(afl.mcr.is_some(), 1 << MCR) + low);
    bit_where(afl.more, 1 << MORE) + (bit_where(afl.mcl.is_some(), 1 << MCL) + middle)
}

fn put_one(out: &mut [u8], at: usize, field: Option<u8>) -> usize
    requires { at + 1 ≤ length out.old }
    ensures end { result ≡ at + length (field_bytes one_byte field) }
    ensures most { result ≤ at + 1 }
    ensures written { take result out.new ≡ take at out.old ++ field_bytes one_byte field }
{
    match field {
        None => at,
        Some(byte) => put(out, at, &[byte]),
    }
}

fn put_two(out: &mut [u8], at: usize, field: Option<u16>) -> usize
    requires { at + 2 ≤ length out.old }
    ensures end { result ≡ at + length (field_bytes (to_le_bytes w16) field) }
    ensures most { result ≤ at + 2 }
    ensures written { take result out.new ≡ take at out.old ++ field_bytes (to_le_bytes w16) field }
    ensures fits { IfSome field (λ n. n < 2 ^ 16) }
{
    match field {
        None => at,
        Some(number) => put(out, at, &number.to_le_bytes()),
    }
}

fn put_four(out: &mut [u8], at: usize, field: Option<u32>) -> usize
    requires { at + 4 ≤ length out.old }
    ensures end { result ≡ at + length (field_bytes (to_le_bytes w32) field) }
    ensures most { result ≤ at + 4 }
    ensures written { take result out.new ≡ take at out.old ++ field_bytes (to_le_bytes w32) field }
    ensures fits { IfSome field (λ n. n < 2 ^ 32) }
{
    match field {
        None => at,
        Some(number) => put(out, at, &number.to_le_bytes()),
    }
}

fn put_eight(out: &mut [u8], at: usize, field: Option<[u8; 8]>) -> usize
    requires { at + 8 ≤ length out.old }
    ensures end { result ≡ at + length (field_bytes (λ mac. mac) field) }
    ensures most { result ≤ at + 8 }
    ensures written { take result out.new ≡ take at out.old ++ field_bytes (λ mac. mac) field }
    ensures fits { IfSome field (λ mac. length mac ≡ 8) }
{
    match field {
        None => at,
        Some(mac) => put(out, at, &mac),
    }
}

// Writes the fields, one behind the other.
fn put_fields(afl: &Afl, out: &mut [u8]) -> usize
    requires { length out.old ≡ 17 }
    ensures end { result ≡ length (fields_bytes afl.now) }
    ensures most { result ≤ 17 }
    ensures written { take result out.new ≡ fields_bytes afl.now }
    ensures ki { IfSome afl.now.ki (λ n. n < 2 ^ 16) }
    ensures mcr { IfSome afl.now.mcr (λ n. n < 2 ^ 32) }
    ensures mac { IfSome afl.now.mac (λ mac. length mac ≡ 8) }
    ensures ml { IfSome afl.now.ml (λ n. n < 2 ^ 16) }
{
    let end = put_one(out, 0, afl.mcl);
    let end = put_two(out, end, afl.ki);
    let end = put_four(out, end, afl.mcr);
    let end = put_eight(out, end, afl.mac);
    put_two(out, end, afl.ml)
}

// Writes the header.
#[tactic(auto, using(lists::proofs::Puts::behind_both))]
fn put_header(afl: &Afl, out: &mut [u8]) -> usize
    requires { length out.old ≡ 21 }
    ensures len { result ≡ length (afl_bytes (fcl_of afl.now) afl.now) }
    ensures spelt { take result out.new ≡ afl_bytes (fcl_of afl.now) afl.now }
    ensures behind { drop result out.new ≡ drop result out.old }
    ensures fits { Fits afl.now }
{
    let mut fields = [0; 17];
    let len = put_fields(afl, &mut fields);
    let fcl = fcl_for(afl).to_le_bytes();
    let end = put(out, 0, &[AFL_CI, 2 + len as u8]);
    let end = put(out, end, &fcl);
    put(out, end, &fields[..len])
}

/// Writes the header, with the bits of FCL that aren't used as 0, and answers how many bytes it has. What stands behind them
/// in `out` stays. What `afl.len` says doesn't matter.
#[tactic(auto, using(crate::proofs::FclLaws::written_again))]
pub fn write_afl(afl: &Afl, out: &mut [u8; 21]) -> usize
    ensures len { result ≡ length (afl_bytes (fcl_of afl.now) afl.now) }
    ensures spelt { take result out.new ≡ afl_bytes (fcl_of afl.now) afl.now }
    ensures behind { drop result out.new ≡ drop result out.old }

    // What is written is read back, whatever follows it, where its fields have places that are read.
    ensures again { IsPlaced afl.now → (rest : List ℕ)
        → afl_at (take result out.new ++ rest) ≡ Ok (record afl.now { len = result }) }
{
    put_header(afl, out)
}
