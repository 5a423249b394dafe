//! The layers in front of a downlink's content.
ghost use Rattle.std.specs.Prelude.{◌≡◌, ◌≤◌, ◌++◌, ℕ, List, Ok};
ghost use Rattle.afl_layer.specs.Header.{afl_at};
ghost use Rattle.downlink_maker.specs.Downlink.{link_bytes, authentication_bytes, authentication_of, header_bytes};

use afl_layer::{Afl, write_afl};
use meter_address::Address;

// C of SND-UD2, and the CI of a command with a long transport header.
const SEND_USER_DATA: u8 = 0x43;

const COMMAND_CI: u8 = 0x5B;

// MCL of a whole message with a counter and a MAC: AES-CMAC-128, cut to eight bytes.
pub(crate) const MESSAGE_CONTROL: u8 = 0x25;

/// The link layer of a downlink whose content has so many blocks: L, C of SND-UD2, M and A of the collector's `own` address.
pub fn link_layer(own: Address, blocks: u8) -> [u8; 10]
    requires { blocks ≤ 6 }
    ensures { result ≡ link_bytes own blocks }
{
    let mut link = [0; 10];
    link[0] = 40 + 16 * blocks;
    link[1] = SEND_USER_DATA;
    link[2..].copy_from_slice(&own.to_bytes());
    link
}

/// The authentication and fragmentation layer of a downlink with this counter and MAC.
pub fn authentication_layer(down: u32, mac: [u8; 8]) -> [u8; 17]
    ensures exact { result ≡ authentication_bytes down mac }
    ensures again { (rest : List ℕ) → afl_at (result ++ rest) ≡ Ok (authentication_of down mac) }
{
    let afl = Afl {
        more: false,
        fid: 0,
        mcl: Some(MESSAGE_CONTROL),
        ki: None,
        mcr: Some(down),
        mac: Some(mac),
        ml: None,
        len: 17,
    };
    let mut written = [0; 21];
    let len = write_afl(&afl, &mut written);
    let mut layer = [0; 17];
    layer.copy_from_slice(&written[..len]);
    layer
}

/// The transport header of a downlink to this meter: of security mode 7, under the meter's first key.
pub fn transport_header(meter: Address, down: u32, blocks: u8) -> [u8; 14]
    requires { blocks ≤ 6 }
    ensures { result ≡ header_bytes meter down blocks }
{
    let [i0, i1, i2, i3, m0, m1, version, device] = meter.in_header_order();
    let access = (down % 256) as u8;
    let [c0, c1] = (0x0700 + 16 * u16::from(blocks)).to_le_bytes();
    [
        COMMAND_CI, i0, i1, i2, i3, m0, m1, version, device, access, 0x00, c0, c1, 0x10,
    ]
}
