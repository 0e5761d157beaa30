// Writes the paper's sheet to standard output: table 0, 1, start stamp 0, fifteen events, event k stamped 1000k, none answered.
// 01, 'The program and one listing'.

#![tactic(auto)]

use relay::{Event, Form};
use sheet::layout::UNANSWERED;

fn main(rt: HostRuntime) {
    let kinds = [Form::Origin as u32, Form::Terminus as u32];
    let events = [
        [Event::Reverse as u32, 0, UNANSWERED, 1000],
        [Event::Strike as u32, 0, UNANSWERED, 2000],
        [Event::Announce as u32, 0, UNANSWERED, 3000],
        [Event::Normal as u32, 0, UNANSWERED, 4000],
        [Event::Reverse as u32, 0, UNANSWERED, 5000],
        [Event::Announce as u32, 0, UNANSWERED, 6000],
        [Event::Pass as u32, 1, UNANSWERED, 7000],
        [Event::Arrive as u32, 0, UNANSWERED, 8000],
        [Event::Release as u32, 1, UNANSWERED, 9000],
        [Event::Pass as u32, 1, UNANSWERED, 10000],
        [Event::Release as u32, 1, UNANSWERED, 11000],
        [Event::Lose as u32, 0, UNANSWERED, 12000],
        [Event::Reverse as u32, 0, UNANSWERED, 13000],
        [Event::Restore as u32, 0, UNANSWERED, 14000],
        [Event::Reverse as u32, 0, UNANSWERED, 15000],
    ];
    let mut out = [0u8; 1024];
    let _ = lent_sheet::write(&kinds, 0, &events, &mut out);
    if let Err(failed) = stream::write_whole(&mut rt.stdout(), &out) {
        let _ = failed.tell(&mut rt.stderr());
    }
}
