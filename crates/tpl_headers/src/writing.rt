//! Writing a transport header.
ghost use Rattle.std.specs.Prelude.{◌≡◌, ◌+◌, ◌≤◌, ◌<◌, ◌^◌, IfSome, ◌++◌, [], ◌∷◌, ℕ, List, Option, Some, None, length, take, drop, Ok};
ghost use Rattle.tpl_headers.specs.Header.{HasItsAddress, HasItsExtension, address_bytes, cfe_bytes, tpl_bytes, tpl_at};

use crate::header::Tpl;
use lists::put;
use meter_address::Address;

// Writes the address, where there is one, identification first.
fn put_address(out: &mut [u8], at: usize, address: Option<Address>) -> usize
    requires { at + 8 ≤ length out.old }
    ensures end { result ≡ at + length (address_bytes address) }
    ensures most { result ≤ at + 8 }
    ensures number { IfSome address (λ a. a.0 < 2 ^ 64) }
    ensures written { take result out.new ≡ take at out.old ++ address_bytes address }
    ensures behind { drop result out.new ≡ drop result out.old }
{
    match address {
        None => at,
        Some(address) => {
            let bytes = address.in_header_order();
            put(out, at, &bytes)
        }
    }
}

// Writes the extension of the configuration field, where there is one.
fn put_extension(out: &mut [u8], at: usize, cfe: Option<u8>) -> usize
    requires { at + 1 ≤ length out.old }
    ensures end { result ≡ at + length (cfe_bytes cfe) }
    ensures most { result ≤ at + 1 }
    ensures written { take result out.new ≡ take at out.old ++ cfe_bytes cfe }
    ensures behind { drop result out.new ≡ drop result out.old }
{
    match cfe {
        None => at,
        Some(cfe) => put(out, at, &[cfe]),
    }
}

// Writes the header, whose numbers are those of their widths.
#[tactic(auto, using(lists::proofs::Puts::behind_both))]
fn put_header(tpl: &Tpl, out: &mut [u8]) -> usize
    requires { length out.old ≡ 14 }
    ensures number { IfSome tpl.now.address (λ a. a.0 < 2 ^ 64) }
    ensures cf { tpl.now.cf < 2 ^ 16 }
    ensures len { result ≡ length (tpl_bytes tpl.now) }
    ensures spelt { take result out.new ≡ tpl_bytes tpl.now }
    ensures behind { drop result out.new ≡ drop result out.old }
{
    let cf = tpl.cf.to_le_bytes();
    let end = put(out, 0, &[tpl.ci]);
    let end = put_address(out, end, tpl.address);
    let end = put(out, end, &[tpl.acc, tpl.status]);
    let end = put(out, end, &cf);
    put_extension(out, end, tpl.cfe)
}

/// Writes the header, and answers how many bytes it has. What stands behind them in `out` stays. What `tpl.len` says doesn't matter.
/// The CI has to be that of a long header where there is an address, and that of a short one where there is none; and the
/// configuration field has to have its extension in mode 7, and in no other mode.
#[tactic(auto, using(crate::proofs::Headers::written_again))]
pub fn write_tpl(tpl: &Tpl, out: &mut [u8; 14]) -> usize
    requires address { HasItsAddress tpl.now.ci tpl.now.address }
    requires extension { HasItsExtension tpl.now.cf tpl.now.cfe }
    ensures len { result ≡ length (tpl_bytes tpl.now) }
    ensures spelt { take result out.new ≡ tpl_bytes tpl.now }
    ensures behind { drop result out.new ≡ drop result out.old }

    // What is written is read back, whatever follows it.
    ensures again { (rest : List ℕ) → tpl_at (take result out.new ++ rest) ≡ Ok (record tpl.now { len = result }) }
{
    put_header(tpl, out)
}
