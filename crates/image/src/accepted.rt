// An image that the test accepted: it is handed on as such, so that no service tests it again or asks for the fact.
ghost use Rattle.std.specs.Prelude.{◌≡◌, ◌+◌, ◌<◌};
ghost use Rattle.bits.specs.Truth.{Decides};
ghost use Rattle.derivation.specs.Grammar.{event_rule, event_rule_count, pair_rule_count, rule_symbol, rule_total};
ghost use Rattle.layout.specs.Layout.{decode};
ghost use Rattle.image.specs.Accepted.{Accepted};

#[derive(Clone, Copy)]
pub struct Grammar<'a> {
    pub bytes: &'a [u8],
    pub ghost accepted: { ∥ Accepted bytes.now ∥₁ },
}

impl<'a> Grammar<'a> {
    pub fn symbol_count(self) -> usize
        ensures { (result ≡ (decode self.entry.bytes.now).symbols) × (result < 256) }
    {
        layout::symbol_count(self.bytes)
    }

    pub fn leaf_count(self) -> usize
        ensures { (result ≡ event_rule_count (decode self.entry.bytes.now)) × (result < 65536) }
    {
        layout::leaf_count(self.bytes)
    }

    pub fn pair_count(self) -> usize
        ensures { (result ≡ pair_rule_count (decode self.entry.bytes.now)) × (result < 65536) }
    {
        layout::pair_count(self.bytes)
    }

    // Whether it admits the record without events.
    pub fn is_quiet(self) -> bool
        ensures { Decides result ((decode self.entry.bytes.now).quiet ≡ 1) }
    {
        layout::quiet_flag(self.bytes) == 1
    }

    // The symbol of rule r, of either kind.
    pub fn symbol_of(self, r: usize) -> usize
        requires { r < rule_total (decode self.bytes.now) }
        ensures { (result ≡ rule_symbol (decode self.entry.bytes.now) r) × (result < 256) }
    {
        layout::symbol_of(self.bytes, r)
    }

    // The event of event rule r.
    pub fn event_of(self, r: usize) -> usize
        requires { r < event_rule_count (decode self.bytes.now) }
        ensures { (result ≡ (event_rule (decode self.entry.bytes.now) r).event) × (result < 65536) }
    {
        layout::event_of(self.bytes, r)
    }
}
