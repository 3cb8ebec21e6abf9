// The lines that the programs write of a meter and of what a call gave, each by the Display of a type of
// its own, and the lists of values that stand in them, with a space before each value.
#![tactic(auto)]

use crossing::Levels;
use level::{Quantity, Samples, Squares};
use meter::{Meter, Report, Reported};
use refusal::Refusal;
use std::fmt;
use std::fmt::{Display, Formatter};

// A line with `meter` and its 82 values: the code, the offset, the margin, the list's length and its 24
// thresholds, n, s, sq high, sq low, P, Q, the 24 a_j, the 24 h_j.
#[derive(Clone, Copy)]
pub struct MeterLine<'a>(pub &'a Meter);

impl Display for MeterLine<'_> {
    fn fmt<W: fmt::Write>(&self, f: &mut Formatter<W>) -> fmt::Result {
        let setting = &self.0.setting;
        let margin = i64::from(setting.margin);
        let list = &setting.thresholds;
        let thresholds = Numbers(&list.at);
        write!(
            f,
            "meter {} {} {margin} {}{thresholds}",
            setting.code, setting.offset, list.count
        )?;
        let state = &self.0.state;
        let sums = &state.sums;
        let totals = Totals(sums.n, sums.s, sums.sq);
        let counts = Counts(&state.a);
        let hangovers = Numbers(&state.h);
        writeln!(f, "{totals} {} {}{counts}{hangovers}", sums.p, sums.q)
    }
}

// A line with a call's name and the number that it gave.
#[derive(Clone, Copy)]
pub struct Given<'a> {
    pub name: &'a str,
    pub answer: Result<(), Refusal>,
}

impl Display for Given<'_> {
    fn fmt<W: fmt::Write>(&self, f: &mut Formatter<W>) -> fmt::Result {
        writeln!(f, "{} {}", self.name, refusal::given(self.answer))
    }
}

// A line with `report`, the number and, where there is a report, its n, s, sq high, sq low, the 24 a_j, L,
// A, C, F, lower, upper, T, the margin and its mark.
#[derive(Clone, Copy)]
pub struct ReportLine<'a>(pub &'a Reported);

impl Display for ReportLine<'_> {
    fn fmt<W: fmt::Write>(&self, f: &mut Formatter<W>) -> fmt::Result {
        write!(f, "report {}", refusal::given(self.0.answer))?;
        if self.0.answer.is_ok() {
            write!(f, "{}", Measured(&self.0.report))?;
        }
        f.write_str("\n")
    }
}

// The values of a report.
#[derive(Clone, Copy)]
struct Measured<'a>(&'a Report);

impl Display for Measured<'_> {
    fn fmt<W: fmt::Write>(&self, f: &mut Formatter<W>) -> fmt::Result {
        let report = self.0;
        let totals = Totals(report.n, report.s, report.sq);
        let counts = Counts(&report.a);
        let levels = &report.levels;
        let found = LevelsOf(levels);
        write!(
            f,
            "{totals}{counts}{found} {} {}",
            levels.lower, levels.upper
        )?;
        let percent = report.percent.number();
        let margin = i64::from(report.margin);
        write!(f, " {percent} {margin} {}", u8::from(report.mark))
    }
}

// n, s, sq high and sq low.
#[derive(Clone, Copy)]
struct Totals(Samples, i64, Squares);

impl Display for Totals {
    fn fmt<W: fmt::Write>(&self, f: &mut Formatter<W>) -> fmt::Result {
        let Totals(n, s, sq) = *self;
        write!(f, " {} {s} {} {}", n.number(), sq.high, sq.low)
    }
}

// Activity counts. As one type with `Numbers`, over what can be displayed, `level` would print for its
// types, for one loop saved: no plainer.
#[derive(Clone, Copy)]
pub struct Counts<'a>(pub &'a [Samples]);

impl Display for Counts<'_> {
    fn fmt<W: fmt::Write>(&self, f: &mut Formatter<W>) -> fmt::Result {
        for count in self.0 {
            spaced(count.number(), f)?;
        }
        Ok(())
    }
}

// L, A, C and F.
#[derive(Clone, Copy)]
pub struct LevelsOf<'a>(pub &'a Levels);

impl Display for LevelsOf<'_> {
    fn fmt<W: fmt::Write>(&self, f: &mut Formatter<W>) -> fmt::Result {
        let Levels {
            level,
            active,
            threshold,
            factor,
            ..
        } = *self.0;
        for steps in [level, active, threshold, factor] {
            write!(f, " {}", i64::from(steps))?;
        }
        Ok(())
    }
}

// Numbers of a list.
#[derive(Clone, Copy)]
struct Numbers<'a>(&'a [u64]);

impl Display for Numbers<'_> {
    fn fmt<W: fmt::Write>(&self, f: &mut Formatter<W>) -> fmt::Result {
        for x in self.0 {
            spaced(*x, f)?;
        }
        Ok(())
    }
}

// A number after a space. By `itoa`, since a meter has 72 of them: by `write!` a line of long numbers
// takes half as many instructions again.
fn spaced<W: fmt::Write>(x: u64, f: &mut Formatter<W>) -> fmt::Result {
    let mut digits = itoa::Buffer::new();
    f.write_str(" ")?;
    f.write_str(digits.format(x))
}
