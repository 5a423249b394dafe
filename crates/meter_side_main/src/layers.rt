//! The layers that stand before a downlink's content, as they should be.
ghost use Rattle.std.specs.Prelude.{◌≡◌, ◌≤◌, ◌+◌, ◌++◌, length};
ghost use Rattle.downlink_maker.specs.Downlink.{link_bytes, authentication_bytes, header_bytes};
ghost use Rattle.meter_side_main.specs.Reading.{agreeing};

use arrayvec::ArrayVec;
use downlink_maker::{authentication_layer, link_layer, transport_header};
use meter_address::Address;

/// How many bytes stand before the content.
pub(crate) const CONTENT_AT: usize = 41;

// Puts bytes behind those that are there.
fn put(bytes: &mut ArrayVec<u8, CONTENT_AT>, more: &[u8])
    requires { length bytes.old.items + length more.now ≤ 41 }
    ensures { bytes.new.items ≡ bytes.old.items ++ more.now }
{
    let put = bytes.try_extend_from_slice(more);
    prove!(put.is_ok());
}

// What should stand before the content of a downlink with so many blocks, this counter and this MAC.
pub(crate) fn layers_before(
    own: Address,
    meter: Address,
    blocks: u8,
    down: u32,
    mac: [u8; 8],
) -> ArrayVec<u8, CONTENT_AT>
    requires { blocks ≤ 6 }
    ensures bytes { result.items ≡ link_bytes own blocks ++ authentication_bytes down mac ++ header_bytes meter down blocks }
    ensures count { length result.items ≡ 41 }
{
    let mut bytes = ArrayVec::new();
    put(&mut bytes, &link_layer(own, blocks));
    put(&mut bytes, &authentication_layer(down, mac));
    put(&mut bytes, &transport_header(meter, down, blocks));
    bytes
}

// How many bytes these have in common in front.
pub(crate) fn agreeing(want: &[u8], have: &[u8]) -> usize
    requires { length want.now ≤ length have.now }
    ensures { result ≡ agreeing want.now have.now }
{
    for place in 0..want.len() {
        if want[place] != have[place] {
            return place;
        }
    }
    want.len()
}
