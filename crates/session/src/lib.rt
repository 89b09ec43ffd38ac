// A session: the chart of the events so far, handed in and back by value. It begins empty; each event adds a column, and the last can be taken
// back.
#![tactic(auto)]

ghost use Rattle.std.specs.Prelude.{◌≡◌};
ghost use Rattle.session.specs.Answer.{added, taken_back};
ghost use Rattle.session.specs.Session.{no_events, AddIs, TakeBackIs};

use image::Refusal;

// The most events of a session, and the words of their chart.
pub const MOST: u64 = 32;

pub const WORDS: usize = 528;

#[derive(Clone, Copy)]
pub struct Session {
    pub chart: [u64; WORDS],
    pub count: u64,
}

// What adding answers: the session after the event, the firings of the event's column, and the verdict so far.
#[derive(Clone, Copy)]
pub struct Addition {
    pub session: Session,
    pub firings: u64,
    pub admitted: bool,
}

// The session without events.
pub fn begin() -> Session
    ensures { result ≡ no_events }
{
    Session {
        chart: [0; WORDS],
        count: 0,
    }
}

// Adds an event: the refusals of the image and then 17, or one column more.
pub fn add(image: &[u8], session: Session, event: u16) -> Result<Addition, Refusal>
    ensures { AddIs image.now session event (added session result) }
{
    let grammar = image::test_image(image)?;
    if session.count >= MOST {
        return Err(Refusal::SessionFull);
    }
    let mut after = session;
    let q = session.count as usize;
    let firings = columns::fill_one(grammar, event as usize, &mut after.chart, q);
    after.count += 1;
    let admitted = chart::top_has(grammar.bytes, &after.chart, q + 1);
    Ok(Addition {
        session: after,
        firings,
        admitted,
    })
}

// Takes the last event back: 18, or the session with its column cleared.
pub fn take_back(session: Session) -> Result<Session, Refusal>
    ensures { TakeBackIs session (taken_back session result) }
{
    if session.count == 0 || session.count > MOST {
        return Err(Refusal::SessionEmpty);
    }
    let mut before = session;
    let k = session.count as usize;
    columns::clear_cells(&mut before.chart, derivation::cell_at(0, k), k);
    before.count -= 1;
    Ok(before)
}
