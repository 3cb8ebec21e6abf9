// The report on a meter.
ghost use Rattle.std.specs.Prelude.{◌≡◌, OnOk, IfErr};
ghost use Rattle.refusal.specs.First.{first_of};
ghost use Rattle.refusal.specs.Number.{number_of};
ghost use Rattle.meter.specs.Calls.{reported_by, report_call};
ghost use Rattle.meter.specs.Inner.{Tested, reported_as};
ghost use Rattle.meter.specs.Reports.{no_report, report_rules};

use crate::{Meter, Report, Reported};
use crossing::Levels;
use level::{Quantity, Samples, Squares, Steps};
use refusal::Refusal;
use thresholds::PLACES;

impl Meter {
    // The report on a meter; or a refusal, with a report of all zeros.
    #[tactic(auto, unfolding(crate::specs::Calls::reported_by, crate::specs::Inner::reported_as, crate::specs::Inner::refused_report))]
    pub fn report(self) -> Reported
        ensures { reported_by result ≡ report_call self }
    {
        match self.try_report() {
            Ok(report) => Reported {
                answer: Ok(()),
                meter: self,
                report,
            },
            Err(why) => Reported {
                answer: Err(why),
                meter: self,
                report: Report::none(),
            },
        }
    }

    // The report; or the first refusal that applies.
    #[tactic(auto, using(crate::proofs::Outcome::no_report_lem, refusal::proofs::Laws::positive, crate::proofs::Finding::with_levels, crate::proofs::Finding::with_none), unfolding(crate::specs::Inner::reported_as, crate::specs::Inner::reported_with, crate::specs::Reports::report_with))]
    fn try_report(&self) -> Result<Report, Refusal>
        ensures { reported_as result self.now ≡ report_call self.now }
    {
        self.check_measured()?;
        let sums = &self.state.sums;
        let levels = crossing::find_levels(
            sums.n,
            sums.sq,
            self.setting.thresholds,
            self.state.a,
            self.setting.margin,
        )?;
        Ok(Report {
            n: sums.n,
            s: sums.s,
            sq: sums.sq,
            a: self.state.a,
            levels,
            percent: percent::percentage(levels.factor),
            margin: self.setting.margin,
            mark: setting::marked_margin(self.setting.margin),
        })
    }

    // What keeps a report from being made before a crossing is looked for: refusals 2 and 12 to 14.
    #[tactic(auto, unfolding(crate::specs::Reports::report_rules, crate::specs::Reports::no_samples, crate::specs::Reports::no_signal, crate::specs::Reports::no_activity, refusal::specs::First::first_of))]
    fn check_measured(&self) -> Result<(), Refusal>
        ensures measured { OnOk result (Tested self.now) }
        ensures refused { IfErr result (λ why. number_of why ≡ first_of (report_rules self.now)) }
    {
        self.usable_rate()?;
        let sums = &self.state.sums;
        if sums.n.number() == 0 {
            return Err(Refusal::NoSamples);
        }
        if sums.sq == Squares::ZERO {
            return Err(Refusal::NoSignal);
        }
        if self.state.a[0].number() == 0 {
            return Err(Refusal::NoActivity);
        }
        Ok(())
    }
}

impl Report {
    // A refused report is all zeros.
    #[tactic(auto, unfolding(crate::specs::Reports::no_report, crossing::specs::Searched::no_levels, thresholds::specs::Places::list_from, level::specs::Types::words))]
    fn none() -> Report
        ensures { result ≡ no_report }
    {
        let zero = Steps::from(0);
        Report {
            n: 0.into(),
            s: 0,
            sq: Squares::ZERO,
            a: [Samples::from(0); PLACES],
            levels: Levels {
                level: zero,
                active: zero,
                threshold: zero,
                factor: zero,
                lower: 0,
                upper: 0,
            },
            percent: 0.into(),
            margin: zero,
            mark: false,
        }
    }
}
