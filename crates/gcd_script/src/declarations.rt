// What the lines that declare something mean, by the words after the first.
ghost use Rattle.std.specs.Prelude.{◌≡◌, ◌-◌, ◌&&◌, [], ◌∷◌, codes, false, is_none, map};
ghost use Rattle.gcd_plan.specs.Limits.{max_blocks, max_file_bytes, max_time, max_value};
ghost use Rattle.gcd_plan.specs.PlanView.{view_of};
ghost use Rattle.gcd_plan.specs.declared.kind.Kind.TheVariants.{Semaphore, Timer, Read};
ghost use Rattle.std.specs.Str.{bytes_eq};
ghost use Rattle.gcd_script.specs.Causes.{coded};
ghost use Rattle.gcd_script.specs.Declarations.{one_of, root, work, counting};
ghost use Rattle.gcd_script.specs.Keywords.{counts};
ghost use Rattle.gcd_script.specs.Meant.{meant, both, given};
ghost use Rattle.gcd_script.specs.Words.{file, path, number, queue};

use crate::amount::Amount;
use crate::cause::{Cause, Choice};
use crate::draft::Draft;
use crate::line::Line;
use crate::meant::{Meant, both, must};
use crate::words::{count, counting, merge_kind, number, path, queue_kind, range, work};
use gcd_builder::Asked;
use gcd_plan::{How, Kind, Obj, WHOLE_FILE};

const ROOT: Obj = Obj(0);

impl<'a> Draft<'a> {
    ghost use Rattle.gcd_builder.specs.Agreement.{Agrees};
    ghost use Rattle.gcd_script.specs.Declarations.{file_line, object_line, queue_line, group_line, semaphore_line, source_line, cancelled_line, until_line, work_line, block_line, intake_line, strip_line, handler_line, main_line};
    ghost use Rattle.gcd_script.specs.Views.{line_view};

    /// `file F PATH`.
    pub fn file_line(&self, words: &[&'a str]) -> Meant<Line<&'a str>>
        requires { Agrees self.now.plan }
        ensures { meant line_view (coded result) ≡ file_line (view_of self.now.plan.parts) (map (λ w. w.now) words.now) }
    {
        match *words {
            [name, feed] => self.named_file(name, feed),
            _ => Err(Cause::WordCount),
        }
    }

    fn named_file(&self, name: &'a str, place: &'a str) -> Meant<Line<&'a str>>
        requires { Agrees self.now.plan }
        ensures { meant line_view (coded result) ≡ file_line (view_of self.now.plan.parts) (name.now ∷ place.now ∷ []) }
    {
        both(self.new_name(name), path(3, place))?;
        Ok(Line::DeclareFile { name, path: place })
    }

    // An object with a new name.
    fn object_line(
        &self,
        name: &'a str,
        what: Meant<(Kind, Obj)>,
        active: bool,
        path: &'a str,
    ) -> Meant<Line<&'a str>>
        requires { Agrees self.now.plan }
        ensures { meant line_view (coded result) ≡ object_line (view_of self.now.plan.parts) name.now (coded what) active path.now }
    {
        let ((), (kind, target)) = both(self.new_name(name), what)?;
        Ok(Line::DeclareObject {
            name,
            kind,
            target,
            active,
            path,
        })
    }

    /// `queue Q K`, `queue Q K inactive`, `queue Q K on T`, `queue Q K on T inactive` (dispatch_queue_create(3)).
    pub fn queue_line(&self, words: &[&'a str]) -> Meant<Line<&'a str>>
        requires { Agrees self.now.plan }
        ensures { meant line_view (coded result) ≡ queue_line (view_of self.now.plan.parts) (map (λ w. w.now) words.now) }
    {
        match *words {
            [name, kind] => self.object_line(name, both(queue_kind(kind), Ok(ROOT)), true, ""),
            [name, kind, inactive] => {
                if inactive != "inactive" {
                    return Err(Cause::Misplaced {
                        place: 4,
                        expected: Choice::Inactive,
                    });
                }
                self.object_line(name, both(queue_kind(kind), Ok(ROOT)), false, "")
            }
            [name, kind, on, target] => {
                if on != "on" {
                    return Err(Cause::Misplaced {
                        place: 4,
                        expected: Choice::On,
                    });
                }
                let target = self.object(Asked::Queue, 5, target);
                self.object_line(name, both(queue_kind(kind), target), true, "")
            }
            [name, kind, on, target, inactive] => {
                self.inactive_queue_on(name, kind, on, target, inactive)
            }
            _ => Err(Cause::WordCount),
        }
    }

    fn inactive_queue_on(
        &self,
        name: &'a str,
        kind: &str,
        on: &str,
        target: &str,
        inactive: &str,
    ) -> Meant<Line<&'a str>>
        requires { Agrees self.now.plan }
        ensures { meant line_view (coded result) ≡ queue_line (view_of self.now.plan.parts) (name.now ∷ kind.now ∷ on.now ∷ target.now ∷ inactive.now ∷ []) }
    {
        if on != "on" {
            return Err(Cause::Misplaced {
                place: 4,
                expected: Choice::On,
            });
        }
        if inactive != "inactive" {
            return Err(Cause::Misplaced {
                place: 6,
                expected: Choice::Inactive,
            });
        }
        let target = self.object(Asked::Queue, 5, target);
        self.object_line(name, both(queue_kind(kind), target), false, "")
    }

    /// `group G` (dispatch_group_create(3)).
    pub fn group_line(&self, words: &[&'a str]) -> Meant<Line<&'a str>>
        requires { Agrees self.now.plan }
        ensures { meant line_view (coded result) ≡ group_line (view_of self.now.plan.parts) (map (λ w. w.now) words.now) }
    {
        match *words {
            [name] => self.object_line(name, Ok((Kind::Group, ROOT)), true, ""),
            _ => Err(Cause::WordCount),
        }
    }

    /// `semaphore S N` (dispatch_semaphore_create(3)).
    pub fn semaphore_line(&self, words: &[&'a str]) -> Meant<Line<&'a str>>
        requires { Agrees self.now.plan }
        ensures { meant line_view (coded result) ≡ semaphore_line (view_of self.now.plan.parts) (map (λ w. w.now) words.now) }
    {
        match *words {
            [name, value] => self.object_line(name, semaphore_kind(value), true, ""),
            _ => Err(Cause::WordCount),
        }
    }

    /// `source S add on T`, `source S or on T`, `source S read PATH on T`, `source S timer START EVERY on T`
    /// (dispatch_source_create(3)).
    pub fn source_line(&self, words: &[&'a str]) -> Meant<Line<&'a str>>
        requires { Agrees self.now.plan }
        ensures { meant line_view (coded result) ≡ source_line (view_of self.now.plan.parts) (map (λ w. w.now) words.now) }
    {
        match *words {
            [name, kind, on, target] => self.merge_source(name, kind, on, target),
            [name, read, feed, on, target] => self.read_source(name, read, feed, on, target),
            [name, timer, start, every, on, target] => {
                self.timer_source(name, timer, timer_kind(start, every), on, target)
            }
            _ => Err(Cause::WordCount),
        }
    }

    fn merge_source(
        &self,
        name: &'a str,
        kind: &str,
        on: &str,
        target: &str,
    ) -> Meant<Line<&'a str>>
        requires { Agrees self.now.plan }
        ensures { meant line_view (coded result) ≡ source_line (view_of self.now.plan.parts) (name.now ∷ kind.now ∷ on.now ∷ target.now ∷ []) }
    {
        if on != "on" {
            return Err(Cause::Misplaced {
                place: 4,
                expected: Choice::On,
            });
        }
        let target = self.object(Asked::Queue, 5, target);
        self.object_line(name, both(merge_kind(kind), target), false, "")
    }

    fn read_source(
        &self,
        name: &'a str,
        read: &str,
        feed: &'a str,
        on: &str,
        target: &str,
    ) -> Meant<Line<&'a str>>
        requires { Agrees self.now.plan }
        ensures { meant line_view (coded result) ≡ source_line (view_of self.now.plan.parts) (name.now ∷ read.now ∷ feed.now ∷ on.now ∷ target.now ∷ []) }
    {
        if read != "read" {
            return Err(Cause::Misplaced {
                place: 3,
                expected: Choice::Read,
            });
        }
        if on != "on" {
            return Err(Cause::Misplaced {
                place: 5,
                expected: Choice::On,
            });
        }
        self.object_line(name, self.read_kind(feed, target), false, feed)
    }

    fn timer_source(
        &self,
        name: &'a str,
        timer: &str,
        kind: Meant<Kind>,
        on: &str,
        target: &str,
    ) -> Meant<Line<&'a str>>
        requires { Agrees self.now.plan }
        ensures { meant line_view (coded result) ≡ given (bytes_eq timer.now (codes "timer") && bytes_eq on.now (codes "on"))
            (object_line (view_of self.now.plan.parts) name.now (both (coded kind) (queue (view_of self.now.plan.parts) target.now)) false []) }
    {
        if timer != "timer" {
            return Err(Cause::Misplaced {
                place: 3,
                expected: Choice::Timer,
            });
        }
        if on != "on" {
            return Err(Cause::Misplaced {
                place: 6,
                expected: Choice::On,
            });
        }
        let target = self.object(Asked::Queue, 7, target);
        self.object_line(name, both(kind, target), false, "")
    }

    // A read source of this feed on this target.
    fn read_kind(&self, feed: &str, target: &str) -> Meant<(Kind, Obj)>
        requires { Agrees self.now.plan }
        ensures { coded result ≡ meant (λ (fits, queue). (Read, queue)) (both (path feed.now) (queue (view_of self.now.plan.parts) target.now)) }
    {
        let ((), queue) = both(path(4, feed), self.object(Asked::Queue, 6, target))?;
        Ok((Kind::Read, queue))
    }

    /// `cancelled S B` (dispatch_source_set_cancel_handler(3)).
    pub fn cancelled_line(&self, words: &[&'a str]) -> Meant<Line<&'a str>>
        requires { Agrees self.now.plan }
        ensures { meant line_view (coded result) ≡ cancelled_line (view_of self.now.plan.parts) (map (λ w. w.now) words.now) }
    {
        match *words {
            [source, block] => {
                let source = self.object(Asked::Source, 2, source);
                let (source, block) = both(source, self.block(3, block))?;
                Ok(Line::SetCancel { source, block })
            }
            _ => Err(Cause::WordCount),
        }
    }

    /// `until MS`.
    pub fn until_line(&self, words: &[&'a str]) -> Meant<Line<&'a str>>
        ensures { meant line_view (coded result) ≡ until_line self.now.has_until (map (λ w. w.now) words.now) }
    {
        match *words {
            [ms] => {
                let first = must(!self.has_until, Cause::SecondUntil);
                let ((), ms) = both(first, number(2, Amount::Time, ms))?;
                Ok(Line::SetUntil(ms))
            }
            _ => Err(Cause::WordCount),
        }
    }

    fn plain_block(&self, name: &'a str) -> Meant<Line<&'a str>>
        requires { Agrees self.now.plan }
        ensures { meant line_view (coded result) ≡ block_line (view_of self.now.plan.parts) (name.now ∷ []) }
    {
        self.new_name(name)?;
        Ok(Line::DeclareBlock { name, work: None })
    }

    // Returns a block with a new name and a work over this part of the file.
    fn work_line(
        &self,
        name: &'a str,
        how: Meant<How>,
        file: Meant<u32>,
        part: Meant<(u32, u32)>,
    ) -> Meant<Line<&'a str>>
        requires { Agrees self.now.plan }
        ensures { meant line_view (coded result) ≡ work_line (view_of self.now.plan.parts) name.now (work (coded how) (coded file) (coded part)) }
    {
        let work = work(how, file, part);
        let ((), work) = both(self.new_name(name), work)?;
        Ok(Line::DeclareBlock {
            name,
            work: Some(work),
        })
    }

    // The same of a block whose work counts the bytes of a value.
    fn counting_line(
        &self,
        name: &'a str,
        count: &str,
        value: &str,
        from: &str,
        part: Meant<(u32, u32)>,
    ) -> Meant<Line<&'a str>>
        requires { Agrees self.now.plan }
        ensures { meant line_view (coded result) ≡ given (bytes_eq count.now (codes "count"))
            (work_line (view_of self.now.plan.parts) name.now (work (counting value.now) (file (view_of self.now.plan.parts) from.now) (coded part))) }
    {
        if count != "count" {
            return Err(Cause::Misplaced {
                place: 3,
                expected: Choice::Count,
            });
        }
        self.work_line(name, counting(value), self.file(5, from), part)
    }

    /// `block B`, `block B W F`, `block B count V F`, `block B W F FROM LEN`, `block B count V F FROM LEN`.
    pub fn block_line(&self, words: &[&'a str]) -> Meant<Line<&'a str>>
        requires { Agrees self.now.plan }
        ensures { meant line_view (coded result) ≡ block_line (view_of self.now.plan.parts) (map (λ w. w.now) words.now) }
    {
        match *words {
            [name] => self.plain_block(name),
            [name, how, file] => {
                self.work_line(name, count(how), self.file(4, file), Ok((0, WHOLE_FILE)))
            }
            [name, count, value, file] => self.counting_line(
                name,
                count,
                value,
                file,
                Ok((0, WHOLE_FILE)),
            ),
            [name, how, file, from, len] => {
                self.work_line(
                    name,
                    count(how),
                    self.file(4, file),
                    range((5, 6), from, len),
                )
            }
            [name, count, value, file, from, len] => {
                self.counting_line(name, count, value, file, range((6, 7), from, len))
            }
            _ => Err(Cause::WordCount),
        }
    }

    /// `intake Q N`.
    pub fn intake_line(&self, words: &[&'a str]) -> Meant<Line<&'a str>>
        requires { Agrees self.now.plan }
        ensures { meant line_view (coded result) ≡ intake_line (view_of self.now.plan.parts) (map (λ w. w.now) words.now) }
    {
        match *words {
            [queue, count] => self.intake_of(queue, count),
            _ => Err(Cause::WordCount),
        }
    }

    fn intake_of(&self, queue: &str, blocks: &str) -> Meant<Line<&'a str>>
        requires { Agrees self.now.plan }
        ensures { meant line_view (coded result) ≡ intake_line (view_of self.now.plan.parts) (queue.now ∷ blocks.now ∷ []) }
    {
        let first = must(self.plan.has_no_intake(), Cause::SecondIntake);
        let what = both(
            self.object(Asked::Queue, 2, queue),
            number(3, Amount::Intake, blocks),
        );
        let ((), (queue, count)) = both(first, what)?;
        Ok(Line::DeclareIntake { queue, count })
    }

    /// `strip A W F LEN N` (dispatch_apply(3)).
    pub fn strip_line(&self, words: &[&'a str]) -> Meant<Line<&'a str>>
        requires { Agrees self.now.plan }
        ensures { meant line_view (coded result) ≡ strip_line (view_of self.now.plan.parts) (map (λ w. w.now) words.now) }
    {
        match *words {
            [name, how, file, len, count] => self.named_strip(name, how, file, len, count),
            _ => Err(Cause::WordCount),
        }
    }

    // What the blocks of a strip count, of which file, how many bytes each, and how many blocks there are.
    fn strip_parts(
        &self,
        how: &str,
        from: &str,
        len: &str,
        blocks: &str,
    ) -> Meant<(How, (u32, (u32, u32)))>
        requires { Agrees self.now.plan }
        ensures { coded result ≡ both (one_of counts how.now)
            (both (file (view_of self.now.plan.parts) from.now)
            (both (number 1 max_file_bytes len.now) (number 0 (max_blocks - 1) blocks.now))) }
    {
        let parts = both(
            number(5, Amount::Part, len),
            number(6, Amount::Parts, blocks),
        );
        both(count(how), both(self.file(4, from), parts))
    }

    fn named_strip(
        &self,
        name: &'a str,
        how: &str,
        file: &str,
        len: &str,
        blocks: &str,
    ) -> Meant<Line<&'a str>>
        requires { Agrees self.now.plan }
        ensures { meant line_view (coded result) ≡ strip_line (view_of self.now.plan.parts) (name.now ∷ how.now ∷ file.now ∷ len.now ∷ blocks.now ∷ []) }
    {
        let what = self.strip_parts(how, file, len, blocks);
        let ((), (how, (file, (len, count)))) = both(self.new_name(name), what)?;
        Ok(Line::DeclareStrip {
            name,
            how,
            file,
            len,
            count,
        })
    }

    /// `handler S` (dispatch_source_set_event_handler(3)).
    pub fn handler_line(&self, words: &[&'a str]) -> Meant<Line<&'a str>>
        requires { Agrees self.now.plan }
        ensures { meant line_view (coded result) ≡ handler_line (view_of self.now.plan.parts) (map (λ w. w.now) words.now) }
    {
        match *words {
            [source] => {
                let source = self.object(Asked::Source, 2, source)?;
                Ok(Line::OpenHandler(source))
            }
            _ => Err(Cause::WordCount),
        }
    }

    /// `main`.
    pub fn main_line(&self, words: &[&'a str]) -> Meant<Line<&'a str>>
        ensures { meant line_view (coded result) ≡ main_line self.now.has_main (map (λ w. w.now) words.now) }
    {
        match *words {
            [] => {
                if self.has_main {
                    return Err(Cause::SecondMain);
                }
                Ok(Line::OpenMain)
            }
            _ => Err(Cause::WordCount),
        }
    }
}

// A semaphore with this first value.
fn semaphore_kind(value: &str) -> Meant<(Kind, Obj)>
    ensures { coded result ≡ meant (λ value. (Semaphore value, root)) (number 0 max_value value.now) }
{
    let value = number(3, Amount::Value, value)?;
    Ok((Kind::Semaphore(value), ROOT))
}

// A timer with these times.
fn timer_kind(start: &str, every: &str) -> Meant<Kind>
    ensures { coded result ≡ meant (λ (m, n). Timer m n) (both (number 1 max_time start.now) (number 1 max_time every.now)) }
{
    let start = number(4, Amount::Time, start);
    let (start, every) = both(start, number(5, Amount::Time, every))?;
    Ok(Kind::Timer { start, every })
}
