// Refusal 2: a meter that no measurement could hold. Its conditions are tested in the definition's order.
ghost use Rattle.std.specs.Prelude.{true, ◌≡◌, IfOk, IfErr};
ghost use Rattle.meter.specs.Inner.{Usable};
ghost use Rattle.meter.specs.Refusals.{impossible};

use crate::Meter;
use rate::Rate;
use refusal::Refusal;

impl Meter {
    // The rate of a meter that a measurement could hold.
    #[tactic(auto, using(crate::proofs::Possible::places_read), unfolding(crate::specs::Refusals::impossible, crate::specs::Refusals::unnamed_code, possible::specs::Impossible::any_of, rate::specs::Rates::is_named, setting::specs::Settings::i_of, rate::specs::Rates::row_of))]
    pub(crate) fn usable_rate(&self) -> Result<Rate, Refusal>
        ensures usable { IfOk result (λ rate. Usable self.now rate) }
        ensures refused { IfErr result (λ why. (why ≡ Refusal.ImpossibleMeter) × (impossible self.now ≡ true)) }
    {
        let rate = Rate::of(self.setting.code).ok_or(Refusal::ImpossibleMeter)?;
        let list = &self.setting.thresholds;
        if list.is_unloadable()
            || setting::wrong_margin(self.setting.margin)
            || possible::impossible_sums(&self.state.sums)
            || possible::impossible_counters(&self.state, list.count, rate.i)
        {
            return Err(Refusal::ImpossibleMeter);
        }
        Ok(rate)
    }
}
