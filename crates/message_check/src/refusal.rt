//! Why a slot refuses what comes to it.
use afl_layer::AflFault;
use ell_layer::EllFault;
use meter_address::Address;
use tpl_headers::TplFault;

/// The first layer of a telegram that can't be read.
#[derive(Clone, Copy)]
pub enum LayerFault {
    /// The extended link layer.
    Ell(EllFault),
    /// The authentication and fragmentation layer.
    Afl(AflFault),
    /// The transport header.
    Tpl(TplFault),
}

/// Why a slot refuses what comes to it. Of those that apply to a telegram, the first in this order is the answer.
#[derive(Clone, Copy)]
pub enum Reason {
    /// The C field, this one, isn't that of an uplink.
    NotUplink(u8),
    /// A layer of the telegram can't be read.
    BadLayers(LayerFault),
    /// A fragment came from a meter that is commissioned in security mode 5.
    PartInMode5,
    /// A fragment has this number, which is above 16.
    TooManyParts(u8),
    /// The message begins with no transport header.
    BadMessage(TplFault),
    /// The message's header has this address, which is another meter's.
    OtherAddress(Address),
    /// The security mode of the message isn't the commissioned one.
    Mode {
        /// The message's security mode.
        found: u8,
        /// The commissioned security mode.
        wanted: u8,
    },
    /// In mode 7: the message control, the message counter or the MAC is missing, or the message control names another
    /// authentication than AES-CMAC-128 cut to eight bytes.
    NoAuth,
    /// In mode 7: the header names this derivation of keys, which isn't CMAC.
    Kdf(u8),
    /// Fewer bytes follow the header than it says are encrypted.
    ShortBlocks {
        /// How many bytes the encrypted blocks have.
        want: usize,
        /// How many bytes follow the header.
        have: usize,
    },
    /// In mode 5: no block is encrypted, so nothing can be checked.
    Unchecked,
    /// In mode 7: the MAC isn't that of the message.
    BadMac,
    /// In mode 7: the message counter isn't above the last stored one.
    Stale {
        /// The message's counter.
        got: u32,
        /// The last stored counter, or the commissioned one where none was stored.
        last: u32,
    },
    /// In mode 5: the decrypted bytes begin with these two, and not with 2F 2F.
    CheckBytes([u8; 2]),
    /// In mode 5: the message's access number, this one, is the last stored one.
    SameAccess(u8),
    /// Eight commands are pending already.
    QueueFull,
    /// The last id of a command is given.
    IdsSpent,
    /// No pending command has this id.
    NoSuch(u32),
    /// A second key came for a meter that is commissioned in security mode 5, which has one key alone.
    KeyInMode5,
}
