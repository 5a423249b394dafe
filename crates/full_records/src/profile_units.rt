//! The profile's quantity and unit, of a record with a long number too: that one has the unit of its code.

ghost use Rattle.std.specs.Prelude.{◌≡◌, ◌+◌, ◌<◌, ◌%◌, ℕ, true, false, None, IsTrue};
ghost use Rattle.dif_vif.specs.declared.span.RecordSpan.{RecordSpan};
ghost use Rattle.full_spans.specs.Long.{IsFullSpan};
ghost use Rattle.record_values.specs.Units.{unit};
ghost use Rattle.full_records.specs.Measures.{announces_code};
ghost use Rattle.full_records.specs.Profile.{coded_unit, placed};
ghost use Rattle.full_records.specs.Values.{is_long};

use crate::measures::announces_code;
use crate::values::is_long;
use dif_vif::RecordSpan;
use record_values::{Unit, unit_of};

/// The code of a VIF behind which a plain text unit stands (EN 13757-3, 6.4).
const PLAIN_TEXT: u8 = 0x7c;

/// The span of a record without data, with this VIF, so many VIFEs at this place, and nothing else.
fn bare_span(vif: u8, vifes_at: usize, vifes: usize) -> RecordSpan
    requires { vifes_at + vifes < 256 }
    ensures { result ≡ record {
      start = 0;
      end = vifes_at + vifes;
      maker = false;
      dif = 0;
      function = 0;
      storage = 0;
      tariff = 0;
      subunit = 0;
      vif = vif;
      text_at = vifes_at;
      text_len = 0;
      vifes_at = vifes_at;
      vifes = vifes;
      lvar = None;
      data_at = vifes_at + vifes;
      data_len = 0;
    } }
{
    RecordSpan {
        start: 0,
        end: vifes_at + vifes,
        maker: false,
        dif: 0,
        function: 0,
        storage: 0,
        tariff: 0,
        subunit: 0,
        vif,
        text_at: vifes_at,
        text_len: 0,
        vifes_at,
        vifes,
        lvar: None,
        data_at: vifes_at + vifes,
        data_len: 0,
    }
}

/// The unit of a code behind FB or FD, by a record without data that has it.
fn extended_unit(vif: u8, code: u8) -> Unit
    requires announced { IsTrue (announces_code vif) }
    requires last { code < 128 }
    ensures { result ≡ coded_unit vif code 3 0 }
{
    let bytes = [0, vif, code];
    unit_of(&bytes, &bare_span(vif, 2, 1))
}

/// The unit of the plain text VIF, by a record without data whose text is empty.
fn text_unit() -> Unit
    ensures { result ≡ coded_unit 0x7c 0 3 0 }
{
    let bytes = [0, PLAIN_TEXT, 0];
    unit_of(&bytes, &bare_span(PLAIN_TEXT, 3, 0))
}

/// The unit of the code of another VIF, by a record without data that has it.
fn primary_unit(code: u8) -> Unit
    requires last { code < 128 }
    requires other { (code ≡ 0x7c) → ⊥ }
    ensures { result ≡ coded_unit code 0 2 0 }
{
    let bytes = [0, code];
    unit_of(&bytes, &bare_span(code, 2, 0))
}

/// The unit of a code by itself: of a VIF, or of a first VIFE behind FB or FD.
fn unit_of_code(vif: u8, code: u8) -> Unit
    requires last { code < 128 }
    ensures { (modifiers_at modifiers : ℕ) → placed result modifiers_at modifiers ≡ coded_unit vif code modifiers_at modifiers }
{
    if announces_code(vif) {
        return extended_unit(vif, code);
    }
    let own = vif % 128;
    if own == PLAIN_TEXT {
        return text_unit();
    }
    primary_unit(own)
}

/// A unit whose modifiers stand at another place.
fn placed(unit: Unit, modifiers_at: usize, modifiers: usize) -> Unit
    ensures { result ≡ placed unit modifiers_at modifiers }
{
    Unit {
        quantity: unit.quantity,
        name: unit.name,
        exponent: unit.exponent,
        modifiers_at,
        modifiers,
    }
}

fn long_unit(bytes: &[u8], span: &RecordSpan) -> Unit
    requires stands { IsFullSpan bytes.now span.now }
    requires long { IsTrue (is_long span.now.lvar) }
    ensures { result ≡ unit bytes.now span.now }
{
    if announces_code(span.vif) {
        let code = bytes[span.vifes_at] % 128;
        let found = unit_of_code(span.vif, code);
        return placed(found, span.vifes_at + 1, span.vifes - 1);
    }
    let found = unit_of_code(span.vif, 0);
    placed(found, span.vifes_at, span.vifes)
}

/// The quantity and the unit of a record of these bytes in the profile.
pub fn full_unit_of(bytes: &[u8], span: &RecordSpan) -> Unit
    requires { IsFullSpan bytes.now span.now }
    ensures { result ≡ unit bytes.now span.now }
{
    if is_long(span.lvar) {
        return long_unit(bytes, span);
    }
    unit_of(bytes, span)
}
