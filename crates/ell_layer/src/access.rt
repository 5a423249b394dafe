//! When a meter listens.
ghost use Rattle.std.specs.Prelude.{◌≡◌};
ghost use Rattle.ell_layer.specs.Access.{access_of, access_in};

/// When a meter listens after its telegram (EN 13757-4).
#[derive(Clone, Copy)]
pub enum Access {
    /// It doesn't listen.
    None,
    /// It doesn't listen now, and will later.
    Soon,
    /// It listens for a short while after the telegram.
    Limited,
    /// It always listens.
    Unlimited,
}

impl Access {
    /// What the bits B (bidirectional) and A (accessible) say. They stand in the communication control of the extended
    /// link layer, and in the configuration field of security mode 5 (OMS Volume 2).
    pub fn from_bits(bidirectional: bool, accessible: bool) -> Access
        ensures { result ≡ access_of bidirectional accessible }
    {
        match (bidirectional, accessible) {
            (false, false) => Access::None,
            (false, true) => Access::Soon,
            (true, false) => Access::Limited,
            (true, true) => Access::Unlimited,
        }
    }

    // What the communication control says.
    pub(crate) fn from_control(control: u8) -> Access
        ensures { result ≡ access_in control }
    {
        Access::from_bits(control >> 7 & 1 == 1, control >> 2 & 1 == 1)
    }
}
