// The desk.
ghost use Rattle.std.specs.Prelude.{◌≡◌, ◌≤◌, IfOk, length};
ghost use Rattle.shelf.specs.Store.{Store, store};
ghost use Rattle.shelf.specs.Calls.{check_put, check_answer, granted, open_answer, opened, schedule_answer, schedule_put, settled, source_answer, source_put};
ghost use Rattle.desk.specs.Answers.{by, check_answer_in, checked, left, unopened};
ghost use Rattle.desk.specs.declared.call.Call.TheVariants as call;

use super::call::{Call, Declined};
use super::domain_name::DomainName;
use domain::{Domain, Tagged, Trapping, Wrapping};
use region::{LabelRow, REGION_LABELS, REGION_ROWS, Row};
use shelf::Shelf;
use std::alloc::{AllocError, Global};
use std::marker::Model;
use validator::{TERM_ROWS, TermRow, Verdict};

mod replaying;

/// A shelf, and the memory that it is lent: the rows and labels of its regions, and the term rows of a check. Programs
/// make one, so its memory is on the heap.
#[derive(Drop)]
pub struct Desk {
    shelf: Shelf,
    rows: Vec<Row>,
    labels: Vec<LabelRow>,
    terms: Vec<TermRow>,
}

/// A desk is seen as the shelf with its rows and labels.
impl Model for Desk {
    ghost Value = { Store };

    ghost view = { λ d. store d.shelf d.rows.items d.labels.items };

    ghost invariant = { λ d. length d.terms.items ≡ 512 };
}

impl Desk {
    /// A desk with room for so many regions, whose shelf was not opened. A shelf takes 1 to 16 of them.
    pub fn new(heap: Global, regions: u8) -> Result<Desk, AllocError>
        ensures { IfOk result (λ st. st ≡ unopened regions) }
    {
        let regions = usize::from(regions);
        Ok(Desk {
            shelf: Shelf::new(),
            rows: vec![in heap; Row::blank(); regions * REGION_ROWS]?,
            labels: vec![in heap; LabelRow::unused(); regions * REGION_LABELS]?,
            terms: vec![in heap; TermRow::Literal(0); TERM_ROWS]?,
        })
    }

    /// OPEN: the shelf is empty, and has as many regions as there is room for.
    pub fn open(&mut self) -> Result<usize, Declined>
        ensures answer { result ≡ by call.Open (open_answer self.old) }
        ensures after { self.new ≡ settled self.old (opened self.old) (open_answer self.old) }
    {
        self.shelf
            .open(self.rows.as_mut_slice(), self.labels.as_mut_slice())
            .map_err(|refusal| Call::Open.declined(refusal))
    }

    fn put_source(&mut self, region: usize, text: &[u8]) -> Result<(), Declined>
        ensures answer { result ≡ by call.Source (granted (source_answer self.old region text.now)) }
        ensures after { self.new ≡ settled self.old (source_put self.old region) (source_answer self.old region text.now) }
    {
        self.shelf
            .put_source(
                self.rows.as_mut_slice(),
                self.labels.as_mut_slice(),
                region,
                text,
            )
            .map_err(|refusal| Call::Source.declined(refusal))
    }

    fn put_schedule(&mut self, region: usize, text: &[u8]) -> Result<(), Declined>
        ensures answer { result ≡ by call.Schedule (granted (schedule_answer self.old region text.now)) }
        ensures after { self.new ≡ settled self.old (schedule_put self.old region) (schedule_answer self.old region text.now) }
    {
        self.shelf
            .put_schedule(
                self.rows.as_mut_slice(),
                self.labels.as_slice(),
                region,
                text,
            )
            .map_err(|refusal| Call::Schedule.declined(refusal))
    }

    fn compare<D: Domain>(&mut self, region: usize) -> Result<Verdict, Declined>
        ensures answer { result ≡ by call.Check (check_answer D.meaning self.old region 512) }
        ensures after { self.new ≡ settled self.old (check_put self.old region) (check_answer D.meaning self.old region 512) }
    {
        self.shelf
            .check::<D>(
                self.rows.as_slice(),
                self.labels.as_slice(),
                self.terms.as_mut_slice(),
                region,
            )
            .map_err(|refusal| Call::Check.declined(refusal))
    }

    fn compare_in(&mut self, domain: DomainName, region: usize) -> Result<Verdict, Declined>
        ensures answer { result ≡ by call.Check (check_answer_in domain self.old region 512) }
        ensures after { self.new ≡ settled self.old (check_put self.old region) (check_answer_in domain self.old region 512) }
    {
        match domain {
            DomainName::Wrapping => self.compare::<Wrapping>(region),
            DomainName::Trapping => self.compare::<Trapping>(region),
            DomainName::TaggedWrapping => self.compare::<Tagged<Wrapping>>(region),
            DomainName::TaggedTrapping => self.compare::<Tagged<Trapping>>(region),
            DomainName::TwiceTaggedWrapping => self.compare::<Tagged<Tagged<Wrapping>>>(region),
        }
    }

    /// Puts the two texts into a region by SOURCE and SCHEDULE, and compares them by CHECK in the domain.
    pub fn check(
        &mut self,
        domain: DomainName,
        region: usize,
        source: &[u8],
        schedule: &[u8],
    ) -> Result<Verdict, Declined>
        ensures answer { result ≡ checked self.old region source.now schedule.now domain }
        ensures after { self.new ≡ left self.old region source.now schedule.now domain }
    {
        self.put_source(region, source)?;
        self.put_schedule(region, schedule)?;
        self.compare_in(domain, region)
    }
}
