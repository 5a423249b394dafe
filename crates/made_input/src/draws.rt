//! Draws from a number.
ghost use Rattle.std.specs.Prelude.{◌≡◌, ℕ, ◌+◌, ◌<◌, ◌^◌};
ghost use Rattle.made_input.specs.Draws.{next_state, draw_of, state_after, key_behind};

/// A linear congruential generator, which begins as a number.
#[derive(Drop)]
pub(crate) struct Draws {
    pub(crate) state: u64,
}

impl Draws {
    /// The upper half of the next state, in four bytes, the low one first.
    fn draw(&mut self) -> [u8; 4]
        ensures state { self.new.state ≡ next_state self.old.state }
        ensures drawn { result ≡ draw_of self.new.state }
    {
        self.state = self
            .state
            .wrapping_mul(6_364_136_223_846_793_005)
            .wrapping_add(1_442_695_040_888_963_407);
        ((self.state >> 32) as u32).to_le_bytes()
    }

    /// Four draws, one behind the other.
    pub(crate) fn key(&mut self) -> [u8; 16]
        ensures state { (number n : ℕ) → self.old.state ≡ state_after n number → self.new.state ≡ state_after (n + 4) number }
        ensures key { (number n : ℕ) → self.old.state ≡ state_after n number → result ≡ key_behind number n }
    {
        let [a, b, c, d] = self.draw();
        let [e, f, g, h] = self.draw();
        let [i, j, k, l] = self.draw();
        let [m, n, o, p] = self.draw();
        [a, b, c, d, e, f, g, h, i, j, k, l, m, n, o, p]
    }
}
