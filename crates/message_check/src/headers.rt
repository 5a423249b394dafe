//! The layers of a telegram above the link.
ghost use Rattle.std.specs.Prelude.{◌≡◌};
ghost use Rattle.message_check.specs.Layers.{has_piece};
ghost use Rattle.message_check.specs.Target.{long_address};

use afl_layer::Afl;
use ell_layer::Ell;
use meter_address::Address;
use tpl_headers::Tpl;

/// The layers of a telegram above the link (EN 13757-4, EN 13757-7).
#[derive(Clone, Copy)]
pub struct Layers {
    /// The header of the extended link layer, where there is one.
    pub ell: Option<Ell>,
    /// The header of the authentication and fragmentation layer, where there is one.
    pub afl: Option<Afl>,
    /// The transport header. A fragment of a message has none of its own.
    pub tpl: Option<Tpl>,
    /// The place of the transport header's CI in the telegram, or that of a fragment's piece of the message.
    pub body: usize,
}

// Whether a piece of a message follows.
pub(crate) fn piece_follows(afl: Option<Afl>) -> bool
    ensures { result ≡ has_piece afl }
{
    match afl {
        None => false,
        Some(afl) => afl.is_fragment(),
    }
}

impl Layers {
    /// The address of the long transport header, where there is one.
    pub fn long_address(&self) -> Option<Address>
        ensures { result ≡ long_address self.now }
    {
        self.tpl?.address
    }

    /// Whether the telegram has a fragment of a message: more of them follow, or its number is at least 2.
    pub fn is_fragment(&self) -> bool
        ensures { result ≡ has_piece self.now.afl }
    {
        piece_follows(self.afl)
    }
}
