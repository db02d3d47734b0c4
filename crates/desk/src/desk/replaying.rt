// Lists of calls on a desk, and what it holds after them.
ghost use Rattle.std.specs.Prelude.{◌≡◌};
ghost use Rattle.replay.specs.Law.{Replayed};
ghost use Rattle.shelf.specs.Calls.{hand_out_answer, kept_answer, reading, seen};
ghost use Rattle.desk.specs.Replays.{replayed_in};

use super::super::domain_name::DomainName;
use super::Desk;
use domain::{Domain, Tagged, Trapping, Wrapping};
use region::{LabelRow, Row};
use replay::{Answer, Call, replay};
use shelf::{Record, Refusal};

impl Desk {
    fn replay_by<D: Domain>(
        &mut self,
        calls: &[Call],
        answers: &mut [Answer],
    ) -> Result<usize, Refusal>
        ensures { Replayed D.meaning 512 calls.now self.old self.new answers.old answers.new result }
    {
        replay::<D>(
            &mut self.shelf,
            self.rows.as_mut_slice(),
            self.labels.as_mut_slice(),
            self.terms.as_mut_slice(),
            calls,
            answers,
        )
    }

    /// Opens the shelf, makes the calls on it in order, in the domain, and writes each call's answer at its place: `replay`,
    /// and the law over calls holds of it.
    pub fn replay(
        &mut self,
        domain: DomainName,
        calls: &[Call],
        answers: &mut [Answer],
    ) -> Result<usize, Refusal>
        ensures { replayed_in domain calls.now self.old self.new answers.old answers.new result }
    {
        match domain {
            DomainName::Wrapping => self.replay_by::<Wrapping>(calls, answers),
            DomainName::Trapping => self.replay_by::<Trapping>(calls, answers),
            DomainName::TaggedWrapping => self.replay_by::<Tagged<Wrapping>>(calls, answers),
            DomainName::TaggedTrapping => self.replay_by::<Tagged<Trapping>>(calls, answers),
            DomainName::TwiceTaggedWrapping => {
                self.replay_by::<Tagged<Tagged<Wrapping>>>(calls, answers)
            }
        }
    }

    /// HAND-OUT: the rows of a region's schedule, where it has passed.
    pub fn hand_out(&self, region: usize) -> Result<&[Row], Refusal>
        ensures { seen result ≡ hand_out_answer self.now region }
    {
        self.shelf
            .hand_out(self.rows.as_slice(), self.labels.as_slice(), region)
    }

    /// All that is kept of a region.
    pub fn kept(&self, region: usize) -> Result<Record, Refusal>
        ensures { kept_answer result ≡ reading self.now region }
    {
        self.shelf.kept(region)
    }

    /// The label rows of all regions, nine for each.
    pub fn labels(&self) -> &[LabelRow]
        ensures { result.now ≡ self.now.labels }
    {
        self.labels.as_slice()
    }
}
