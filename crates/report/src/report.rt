// A report: a number, a place and three figures, as a refused call gives it and one that is done, and its storing.
ghost use Rattle.std.specs.Prelude.{◌≡◌, ◌≤◌, length};
ghost use Rattle.grid.specs.Questions.{number_of};
ghost use Rattle.report.specs.Results.{ReportStored, twos_complement};

use grid::Refused;

#[derive(Clone, Copy)]
pub struct Report {
    pub number: u32,
    pub place: usize,
    pub first: usize,
    pub second: usize,
    pub third: usize,
}

// Stores the place and the figures, and returns the number.
pub fn put_report(figures: &mut [u64], report: Report) -> u32
    requires { 4 ≤ length figures.old }
    ensures { ReportStored report figures.old result figures.new }
{
    figures[0] = report.place as u64;
    figures[1] = report.first as u64;
    figures[2] = report.second as u64;
    figures[3] = report.third as u64;
    report.number
}

// A refused call reports the question's number and its place. All its other figures are 0.
pub fn refused_report(no: Refused) -> Report
    ensures { result ≡ record { number = number_of no.question; place = no.place; first = 0; second = 0; third = 0 } }
{
    Report {
        number: u32::from(no.question),
        place: no.place,
        first: 0,
        second: 0,
        third: 0,
    }
}

// A call that is done reports its figures.
pub fn done_report(first: usize, second: usize, third: usize) -> Report
    ensures { result ≡ record { number = 0; place = 0; first = first; second = second; third = third } }
{
    Report {
        number: 0,
        place: 0,
        first,
        second,
        third,
    }
}

// A signed number as a figure: below 0 in two's complement.
pub fn figure_of(z: i64) -> usize
    ensures { result ≡ twos_complement z }
{
    z.cast_unsigned() as usize
}
