//! A script that is read line by line; each line is played when it is read.
ghost use Rattle.std.specs.Prelude.{◌≡◌, ◌+◌, ◌++◌, ◌<◌, ◌≤◌, ◌^◌, [], false, None, Some, Ok, IfOk, OnOk};
ghost use Rattle.std.specs.Option.{option_copied};
ghost use Rattle.script_play.specs.Apps.{core_courses, is_over};
ghost use Rattle.script_play.specs.Readings.{unread, refusing, counted, closed, closing, closing_by, open_end, group_taken, app_taken, period_taken, period_told, header_taken, header_told, line_done, told_done, line_taken, line_told, taken_at, told_at, end_at, end_of, end_told};

use crate::app::AppPlay;
use crate::status::{Refusal, Status};
use smart_base::duplicate::Duplicate;
use smart_base::limits::PERIOD;
use smart_base::sequence::Sequence;
use smart_base::view::View;
use std::alloc::{AllocError, Global};
use std::marker::Model;
use world_rules::line::{App, Header, Kind, Line, OutLine};
use world_script::fault::LineFault;
use world_script::reading::{
    is_nothing, is_printed, is_short, read_app, read_group, read_line, read_period,
};

/// The greatest number of lines.
const LINES: u64 = 1 << 20;

/// A script as far as it was read.
pub struct Script {
    alloc: Global,
    group: Option<View>,
    app: Option<App>,
    play: Option<AppPlay>,
    count: u64,
    refused: Option<Refusal>,
}

impl Drop for Script {
    fn drop(self) {
        let Script {
            alloc: _,
            group: _,
            app: _,
            play: _,
            count: _,
            refused: _,
        } = self;
    }
}

impl Model for Script {
    ghost use Rattle.std.specs.Prelude.{◌≡◌, ◌≤◌, ◌^◌, false, None, Some};
    ghost use Rattle.script_play.specs.Apps.{is_over};
    ghost use Rattle.script_play.specs.Readings.{Reading};
    ghost use Rattle.script_play.specs.declared.app.AppPlay.{AppPlay};

    ghost Value = { Reading };

    ghost view = { λ s. record { group = s.group; app = s.app; play = s.play; count = s.count; refused = s.refused } };

    ghost invariant = { λ s. (s.count ≤ 2 ^ 20) × (s.refused ≡ None → (p : AppPlay) → s.play ≡ Some p → is_over p ≡ false) };
}

/// What tells that a header is whole. Error: want of memory.
fn closing(
    alloc: Global,
    view: &View,
    app: App,
    period: u32,
) -> Result<Sequence<OutLine>, AllocError>
    ensures { IfOk result (λ told. told ≡ closing view.now app period) }
{
    let mut told = Sequence::new(alloc);
    told.push(OutLine::Group {
        members: view.members().len() as u64,
        faulty: view.f(),
        app,
        period,
    })?;
    Ok(told)
}

/// Lines, and then more. Error: want of memory.
fn then(lines: Sequence<OutLine>, more: Sequence<OutLine>) -> Result<Sequence<OutLine>, AllocError>
    ensures { IfOk result (λ all. all ≡ lines ++ more) }
{
    let mut all = lines.into_vec();
    let mut more = more.into_vec();
    all.append(&mut more)?;
    Ok(Sequence::from_vec(all))
}

impl Script {
    /// A script before its first line.
    pub fn new(alloc: Global) -> Self
        ensures { result ≡ unread }
    {
        Script {
            alloc,
            group: None,
            app: None,
            play: None,
            count: 0,
            refused: None,
        }
    }

    /// Refuses the next line, which tells nothing.
    fn refuse(&mut self, why: Refusal) -> Sequence<OutLine>
        ensures told { result ≡ [] }
        ensures refused { self.new ≡ refusing self.old why }
    {
        self.refused = Some(why);
        Sequence::new(self.alloc)
    }

    /// What tells that the header ends here, if it names a service. Error: want of memory.
    fn closing_told(&self) -> Result<Sequence<OutLine>, AllocError>
        ensures { IfOk result (λ told. told ≡ closing_by self.now.group self.now.app) }
    {
        let Some(view) = &self.group else {
            return Ok(Sequence::new(self.alloc));
        };
        let Some(app) = self.app else {
            return Ok(Sequence::new(self.alloc));
        };
        closing(self.alloc, view, app, PERIOD)
    }

    /// Refuses the next line of a script without a play. Its header ends before that line.
    fn refuse_open(&mut self, why: Refusal) -> Result<Sequence<OutLine>, AllocError>
        ensures told { IfOk result (λ told. told ≡ closing_by self.old.group self.old.app) }
        ensures refused { OnOk result (self.new ≡ refusing self.old why) }
    {
        let told = self.closing_told()?;
        self.refused = Some(why);
        Ok(told)
    }

    /// Takes the line `group N F`.
    fn take_group(&mut self, view: Option<View>) -> Sequence<OutLine>
        requires open { self.old.refused ≡ None }
        requires room { self.old.count < 2 ^ 20 }
        requires start { self.old.play ≡ None }
        ensures told { result ≡ [] }
        ensures taken { self.new ≡ group_taken self.old view }
    {
        match view {
            None => self.refuse(Refusal::Script(Kind::Header)),
            Some(view) => {
                self.group = Some(view);
                self.count += 1;
                Sequence::new(self.alloc)
            }
        }
    }

    /// Takes the line that names the service. The next line may still state a period.
    fn take_app(&mut self, app: Option<App>) -> Sequence<OutLine>
        requires open { self.old.refused ≡ None }
        requires room { self.old.count < 2 ^ 20 }
        requires start { self.old.play ≡ None }
        ensures told { result ≡ [] }
        ensures taken { self.new ≡ app_taken self.old app }
    {
        match app {
            None => self.refuse(Refusal::Script(Kind::Header)),
            Some(app) => {
                self.app = Some(app);
                self.count += 1;
                Sequence::new(self.alloc)
            }
        }
    }

    /// Takes the line that states a period, with which the header is whole.
    fn take_stated(
        &mut self,
        view: View,
        app: App,
        period: u32,
    ) -> Result<Sequence<OutLine>, AllocError>
        requires open { self.old.refused ≡ None }
        requires room { self.old.count < 2 ^ 20 }
        requires start { self.old.play ≡ None }
        ensures told { IfOk result (λ told. told ≡ closing view app period) }
        ensures taken { OnOk result (self.new ≡ counted (closed self.old view app period)) }
    {
        let told = closing(self.alloc, &view, app, period)?;
        let play = AppPlay::begin(self.alloc, app, Header { view, period })?;
        self.play = Some(play);
        self.count += 1;
        Ok(told)
    }

    /// Takes a line that has a meaning.
    fn take_meant(&mut self, mut play: AppPlay, line: Line) -> Result<Sequence<OutLine>, AllocError>
        requires open { self.old.refused ≡ None }
        requires room { self.old.count < 2 ^ 20 }
        requires going { is_over play ≡ false }
        ensures told { IfOk result (λ told. told ≡ told_done core_courses play (Ok line)) }
        ensures refused { OnOk result (self.new.refused ≡ (line_done core_courses (record self.old { play = Some play }) play (Ok line)).refused) }
        ensures count { OnOk result (self.new.count ≡ (line_done core_courses (record self.old { play = Some play }) play (Ok line)).count) }
        ensures whole { OnOk result ((line_done core_courses (record self.old { play = Some play }) play (Ok line)).refused ≡ None → self.new ≡ line_done core_courses (record self.old { play = Some play }) play (Ok line)) }
    {
        match play.play(line)? {
            Err(why) => Ok(self.refuse(why)),
            Ok(told) => {
                self.play = Some(play);
                self.count += 1;
                Ok(told)
            }
        }
    }

    /// Takes a line that follows the header.
    fn take_play_line(
        &mut self,
        play: AppPlay,
        bytes: &[u8],
    ) -> Result<Sequence<OutLine>, AllocError>
        requires open { self.old.refused ≡ None }
        requires room { self.old.count < 2 ^ 20 }
        requires going { is_over play ≡ false }
        ensures told { IfOk result (λ told. told ≡ told_at core_courses self.old bytes.now (Some play)) }
        ensures refused { OnOk result (self.new.refused ≡ (taken_at core_courses (record self.old { play = Some play }) bytes.now (Some play)).refused) }
        ensures count { OnOk result (self.new.count ≡ (taken_at core_courses (record self.old { play = Some play }) bytes.now (Some play)).count) }
        ensures whole { OnOk result ((taken_at core_courses (record self.old { play = Some play }) bytes.now (Some play)).refused ≡ None → self.new ≡ taken_at core_courses (record self.old { play = Some play }) bytes.now (Some play)) }
    {
        match read_line(self.alloc, bytes) {
            Err(LineFault::NoMemory) => Err(AllocError),
            Err(LineFault::Kind { kind }) => Ok(self.refuse(Refusal::Script(kind))),
            Ok(line) => self.take_meant(play, line),
        }
    }

    /// Takes the line after a header that states no period.
    fn take_first(
        &mut self,
        view: View,
        app: App,
        bytes: &[u8],
    ) -> Result<Sequence<OutLine>, AllocError>
        requires open { self.old.refused ≡ None }
        requires room { self.old.count < 2 ^ 20 }
        requires start { self.old.play ≡ None }
        ensures told { IfOk result (λ told. told ≡ period_told core_courses view app bytes.now None) }
        ensures refused { OnOk result (self.new.refused ≡ (period_taken core_courses self.old view app bytes.now None).refused) }
        ensures count { OnOk result (self.new.count ≡ (period_taken core_courses self.old view app bytes.now None).count) }
        ensures whole { OnOk result ((period_taken core_courses self.old view app bytes.now None).refused ≡ None → self.new ≡ period_taken core_courses self.old view app bytes.now None) }
    {
        let told = closing(self.alloc, &view, app, PERIOD)?;
        let header = Header {
            view,
            period: PERIOD,
        };
        let play = AppPlay::begin(self.alloc, app, header)?;
        let more = self.take_play_line(play, bytes)?;
        then(told, more)
    }

    /// Takes the line after the one that names the service, unless it is a comment. It states a period,
    /// or the header ends before it.
    fn take_period(
        &mut self,
        view: View,
        app: App,
        bytes: &[u8],
    ) -> Result<Sequence<OutLine>, AllocError>
        requires open { self.old.refused ≡ None }
        requires room { self.old.count < 2 ^ 20 }
        requires start { self.old.play ≡ None }
        ensures told { IfOk result (λ told. told ≡ header_told core_courses bytes.now (Some view) (Some app)) }
        ensures refused { OnOk result (self.new.refused ≡ (header_taken core_courses self.old bytes.now (Some view) (Some app)).refused) }
        ensures count { OnOk result (self.new.count ≡ (header_taken core_courses self.old bytes.now (Some view) (Some app)).count) }
        ensures whole { OnOk result ((header_taken core_courses self.old bytes.now (Some view) (Some app)).refused ≡ None → self.new ≡ header_taken core_courses self.old bytes.now (Some view) (Some app)) }
    {
        match read_period(view.members().len() as u64, bytes) {
            Some(Some(period)) => self.take_stated(view, app, period),
            Some(None) => {
                let told = closing(self.alloc, &view, app, PERIOD)?;
                self.refused = Some(Refusal::Script(Kind::Header));
                Ok(told)
            }
            None => self.take_first(view, app, bytes),
        }
    }

    /// Takes a line that is no comment, where the header is not whole.
    fn take_header_words(&mut self, bytes: &[u8]) -> Result<Sequence<OutLine>, AllocError>
        requires open { self.old.refused ≡ None }
        requires room { self.old.count < 2 ^ 20 }
        requires start { self.old.play ≡ None }
        ensures told { IfOk result (λ told. told ≡ header_told core_courses bytes.now self.old.group self.old.app) }
        ensures refused { OnOk result (self.new.refused ≡ (header_taken core_courses self.old bytes.now self.old.group self.old.app).refused) }
        ensures count { OnOk result (self.new.count ≡ (header_taken core_courses self.old bytes.now self.old.group self.old.app).count) }
        ensures whole { OnOk result ((header_taken core_courses self.old bytes.now self.old.group self.old.app).refused ≡ None → self.new ≡ header_taken core_courses self.old bytes.now self.old.group self.old.app) }
    {
        let Some(group) = &self.group else {
            let view = read_group(self.alloc, bytes)?;
            return Ok(self.take_group(view));
        };
        let view = group.duplicate(self.alloc)?;
        let Some(app) = self.app else {
            return Ok(self.take_app(read_app(bytes)));
        };
        self.take_period(view, app, bytes)
    }

    /// Takes a line, where the header is not whole.
    #[tactic(auto, using(crate::proofs::ReadingCounts::closed_counts))]
    fn take_header_line(&mut self, bytes: &[u8]) -> Result<Sequence<OutLine>, AllocError>
        requires open { self.old.refused ≡ None }
        requires room { self.old.count < 2 ^ 20 }
        requires start { self.old.play ≡ None }
        ensures told { IfOk result (λ told. told ≡ told_at core_courses self.old bytes.now None) }
        ensures refused { OnOk result (self.new.refused ≡ (taken_at core_courses self.old bytes.now None).refused) }
        ensures count { OnOk result (self.new.count ≡ (taken_at core_courses self.old bytes.now None).count) }
        ensures whole { OnOk result ((taken_at core_courses self.old bytes.now None).refused ≡ None → self.new ≡ taken_at core_courses self.old bytes.now None) }
    {
        if !is_printed(bytes) {
            return self.refuse_open(Refusal::Script(Kind::Byte));
        }
        if !is_short(bytes) {
            return self.refuse_open(Refusal::Script(Kind::Long));
        }
        if is_nothing(bytes) {
            self.count += 1;
            return Ok(Sequence::new(self.alloc));
        }
        self.take_header_words(bytes)
    }

    /// Takes the next line, and gives what it tells. A refused line tells no more than the header, if
    /// it ends there. After a refused line the play is gone. Error: want of memory.
    #[tactic(auto, using(crate::proofs::ReadingCounts::closed_counts), unfolding(crate::specs::Readings::line_taken, crate::specs::Readings::line_told))]
    pub fn take_line(&mut self, bytes: &[u8]) -> Result<Sequence<OutLine>, AllocError>
        requires { self.old.refused ≡ None }
        ensures told { IfOk result (λ told. told ≡ line_told core_courses self.old bytes.now) }
        ensures refused { OnOk result (self.new.refused ≡ (line_taken core_courses self.old bytes.now).refused) }
        ensures count { OnOk result (self.new.count ≡ (line_taken core_courses self.old bytes.now).count) }
        ensures whole { OnOk result ((line_taken core_courses self.old bytes.now).refused ≡ None → self.new ≡ line_taken core_courses self.old bytes.now) }
    {
        if self.count >= LINES {
            if self.play.is_none() {
                return self.refuse_open(Refusal::Limit);
            }
            return Ok(self.refuse(Refusal::Limit));
        }
        match self.play.take() {
            None => self.take_header_line(bytes),
            Some(play) => self.take_play_line(play, bytes),
        }
    }

    /// The reason for which the next line is refused, if it is.
    pub fn refused(&self) -> Option<Refusal>
        ensures { result ≡ self.now.refused }
    {
        self.refused
    }

    /// The number of lines that had a meaning.
    pub fn count(&self) -> u64
        ensures value { result ≡ self.now.count }
        ensures small { result ≤ 2 ^ 20 }
    {
        self.count
    }

    /// The play, if the header is whole.
    pub fn play(&self) -> Option<&AppPlay>
        ensures { option_copied result ≡ self.now.play }
    {
        self.play.as_ref()
    }

    /// What is told at the end of the input where no play has begun. A header that names a service is
    /// whole there. Error: want of memory.
    fn open_end(&self) -> Result<Sequence<OutLine>, AllocError>
        ensures { IfOk result (λ told. told ≡ open_end self.now.count self.now.group self.now.app) }
    {
        let Some(view) = &self.group else {
            return Ok(Sequence::new(self.alloc));
        };
        let Some(app) = self.app else {
            return Ok(Sequence::new(self.alloc));
        };
        let mut told = closing(self.alloc, view, app, PERIOD)?;
        told.push(OutLine::End {
            lines: self.count,
            messages: 0,
        })?;
        Ok(told)
    }

    /// What is told at the end of the input, if the header names a service. Error: want of memory.
    pub fn last_told(&self) -> Result<Sequence<OutLine>, AllocError>
        ensures { IfOk result (λ told. told ≡ end_told self.now self.now.play) }
    {
        let Some(play) = &self.play else {
            return self.open_end();
        };
        let mut told = Sequence::new(self.alloc);
        told.push(OutLine::End {
            lines: self.count,
            messages: play.sent_count(),
        })?;
        Ok(told)
    }

    /// The status of the script if its input ends here.
    pub fn end(&self) -> Status
        ensures { result ≡ end_at self.now.count self.now.app }
    {
        if self.app.is_some() {
            Status::Ok
        } else {
            Status::Script {
                line: self.count + 1,
                kind: Kind::Empty,
            }
        }
    }
}

/// The status of a script that ended, or of which a line was refused.
pub fn script_end(script: &Script) -> Status
    ensures { result ≡ end_of script.now }
{
    match script.refused() {
        None => script.end(),
        Some(Refusal::Script(kind)) => Status::Script {
            line: script.count() + 1,
            kind,
        },
        Some(Refusal::Premise(which)) => Status::Premise {
            line: script.count() + 1,
            which,
        },
        Some(Refusal::Limit) => Status::Limit {
            line: script.count() + 1,
        },
    }
}
