// What all words of a line mean, and what is judged of the whole line.
ghost use Rattle.std.specs.Prelude.{◌≡◌, ◌∷◌, map};
ghost use Rattle.gcd_plan.specs.PlanView.{view_of};
ghost use Rattle.gcd_script.specs.Causes.{cause_refusal, coded};
ghost use Rattle.gcd_script.specs.declared.refusal.Refusal.TheVariants.{Repeated};
ghost use Rattle.gcd_builder.specs.Bodies.{may_have};
ghost use Rattle.gcd_script.specs.Judged.{is_allowed};
ghost use Rattle.gcd_script.specs.Views.{line_view};

use crate::cause::{Cause, Limit};
use crate::draft::Draft;
use crate::keyword::Keyword;
use crate::line::Line;
use crate::meant::Meant;
use gcd_builder::may_have;
use gcd_plan::Act;

// Whether no act stands in a handler that may not have it.
fn is_allowed(line: &Line<&str>) -> bool
    ensures { result ≡ is_allowed (line_view line.now) }
{
    match *line {
        Line::DeclareFile { .. } => true,
        Line::DeclareObject { .. } => true,
        Line::DeclareBlock { .. } => true,
        Line::SetUntil(_) => true,
        Line::SetCancel { .. } => true,
        Line::OpenHandler(_) => true,
        Line::OpenMain => true,
        Line::AddAct(run, act) => may_have(run, act),
        Line::DeclareIntake { .. } => true,
        Line::DeclareStrip { .. } => true,
    }
}

impl<'a> Draft<'a> {
    ghost use Rattle.std.specs.Prelude.{◌+◌, is_none, length, nat_le, true};
    ghost use Rattle.std.specs.Option.{option_map_or};
    ghost use Rattle.gcd_plan.specs.PlanView.{cancel_block};
    ghost use Rattle.gcd_plan.specs.Limits.{max_blocks};
    ghost use Rattle.gcd_plan.specs.Validity.{block_of, strip_of};
    ghost use Rattle.gcd_builder.specs.Agreement.{Agrees};
    ghost use Rattle.gcd_script.specs.Forms.{line_by, form_of};
    ghost use Rattle.gcd_builder.specs.Taken.{is_free, is_unapplied, is_untaken_by};
    ghost use Rattle.gcd_script.specs.Judged.{is_untaken, has_room, line_of};
    ghost use Rattle.gcd_script.specs.Meant.{meant};
    ghost use Rattle.gcd_script.specs.Views.{draft_view};

    // What the words after a known first one mean.
    fn line_by(&self, keyword: Keyword, words: &[&'a str]) -> Meant<Line<&'a str>>
        requires { Agrees self.now.plan }
        ensures { meant line_view (coded result) ≡ line_by (draft_view self.now) (map (λ w. w.now) words.now) keyword }
    {
        match keyword {
            Keyword::File => self.file_line(words),
            Keyword::Queue => self.queue_line(words),
            Keyword::Group => self.group_line(words),
            Keyword::Semaphore => self.semaphore_line(words),
            Keyword::Source => self.source_line(words),
            Keyword::Cancelled => self.cancelled_line(words),
            Keyword::Until => self.until_line(words),
            Keyword::Block => self.block_line(words),
            Keyword::Handler => self.handler_line(words),
            Keyword::Main => self.main_line(words),
            Keyword::Submit(how) => self.act_line(self.submit_act(how, words)),
            Keyword::GroupSubmit(how) => self.act_line(self.group_submit_act(how, words)),
            Keyword::OneObject(what) => self.act_line(self.object_act(what, words)),
            Keyword::Limited(what) => self.act_line(self.limited_act(what, words)),
            Keyword::Target => self.act_line(self.target_act(words)),
            Keyword::Merge => self.act_line(self.merge_act(words)),
            Keyword::Intake => self.intake_line(words),
            Keyword::Strip => self.strip_line(words),
            Keyword::Apply => self.act_line(self.apply_act(words)),
            Keyword::OneBlock(what) => self.act_line(self.block_act(what, words)),
            Keyword::NotifyBlock => self.act_line(self.notify_block_act(words)),
        }
    }

    // What all words together mean.
    fn form_of(&self, first: &str, words: &[&'a str]) -> Meant<Line<&'a str>>
        requires { Agrees self.now.plan }
        ensures { meant line_view (coded result) ≡ form_of (draft_view self.now) (first.now ∷ map (λ w. w.now) words.now) }
    {
        match Keyword::of_word(first) {
            Some(keyword) => self.line_by(keyword, words),
            None => Err(Cause::UnknownFirst),
        }
    }

    // Whether what the line takes is not taken.
    fn is_untaken(&self, line: &Line<&str>) -> bool
        requires { Agrees self.now.plan }
        ensures { result ≡ is_untaken (draft_view self.now) (line_view line.now) }
    {
        match *line {
            Line::DeclareFile { .. } => true,
            Line::DeclareObject { .. } => true,
            Line::DeclareBlock { .. } => true,
            Line::SetUntil(_) => true,
            Line::SetCancel { source, block } => self.plan.is_free(block)
                && self.plan.lacks_cancel(source),
            Line::OpenHandler(s) => !self.handlers.get(s.0 as usize).copied().unwrap_or(false),
            Line::OpenMain => true,
            Line::AddAct(_, act) => self.plan.is_untaken_by(act),
            Line::DeclareIntake { .. } => true,
            Line::DeclareStrip { .. } => true,
        }
    }

    // Whether there is room for what the line adds.
    fn has_room(&self, line: &Line<&str>) -> bool
        requires { Agrees self.now.plan }
        ensures { result ≡ has_room (view_of self.now.plan.parts) (line_view line.now) }
    {
        match *line {
            Line::DeclareFile { .. } => self.plan.has_file_room(),
            Line::DeclareObject { .. } => self.plan.has_object_room(),
            Line::DeclareBlock { .. } => self.plan.has_block_room(),
            Line::SetUntil(_) => true,
            Line::SetCancel { .. } => true,
            Line::OpenHandler(_) => true,
            Line::OpenMain => true,
            Line::AddAct(..) => self.plan.has_act_room(),
            Line::DeclareIntake { count, .. } => self.plan.has_room_for(count),
            Line::DeclareStrip { count, .. } => {
                self.plan.has_room_for(count) && self.plan.has_strip_room()
            }
        }
    }

    // Returns what an earlier line has taken of a line that is not untaken.
    fn repeated(&self, line: &Line<&str>) -> Cause
        requires { Agrees self.now.plan }
        ensures { cause_refusal result ≡ Repeated }
    {
        match *line {
            Line::OpenHandler(_) => Cause::SecondHandler,
            Line::SetCancel { block, .. } if self.plan.is_free(block) => Cause::SecondCancel,
            Line::AddAct(_, Act::Apply(..)) => Cause::AppliedTwice,
            _ => Cause::SubmittedTwice,
        }
    }

    // Returns what there is no room for, of a line that has no room.
    fn limit(&self, line: &Line<&str>) -> Limit {
        match *line {
            Line::DeclareFile { .. } => Limit::Files,
            Line::DeclareObject { .. } => Limit::Objects,
            Line::DeclareStrip { count, .. } if self.plan.has_room_for(count) => Limit::Strips,
            Line::AddAct(..) => Limit::Acts,
            _ => Limit::Blocks,
        }
    }

    /// Returns what the words of a line mean; `words` are those after the first.
    pub fn line_of(&self, first: &str, words: &[&'a str]) -> Meant<Line<&'a str>>
        requires { Agrees self.now.plan }
        ensures { meant line_view (coded result) ≡ line_of (draft_view self.now) (first.now ∷ map (λ w. w.now) words.now) }
    {
        let line = self.form_of(first, words)?;
        if !self.is_untaken(&line) {
            return Err(self.repeated(&line));
        }
        if !is_allowed(&line) {
            return Err(Cause::InHandler);
        }
        if !self.has_room(&line) {
            return Err(Cause::PastLimit(self.limit(&line)));
        }
        Ok(line)
    }
}
