//! One connection.
ghost use Rattle.std.specs.Prelude.{◌≡◌, ℕ, List, [], ◌++◌, All, OnOk};
ghost use Rattle.std.specs.Io.KnownBytes.{Appends, Consumes};
ghost use Rattle.http.specs.Request.{head_of};
ghost use Rattle.http_server.specs.Connection.{history};
ghost use Rattle.http_server.specs.History.{IsDone};
ghost use Rattle.bayou_web.specs.Door.{MayAskNothing};

use crate::timed::{Limit, LimitedStream};
use bayou_base::limits::{MAX_LINE_BYTES, MAX_TURNS, READ_BYTES};
use bayou_web::{PageDesk, Site};
use http_server::{Config, Connection, serve};
use std::alloc::Global;
use std::hash::RandomState;
use std::io;
use std::io::{Read, Write};
use std::net::{Shutdown, TcpStream};
use std::time::{Clock, Duration};

/// For how many milliseconds one call of a socket waits at the most.
const CALL_MILLISECONDS: u64 = 50;

/// For how many milliseconds a byte more of a request is waited for, or for the first: a browser opens connections that it may need, and asks nothing there.
const IDLE_MILLISECONDS: u64 = 250;

/// For how many milliseconds a request is waited for, and as many for its response to be taken.
const WHOLE_MILLISECONDS: u64 = 3_000;

/// How many bytes the body of a request has at the most: a line as long as one may be, and the JSON around it.
const MAX_REQUEST_BYTES: usize = 2 * MAX_LINE_BYTES;

/// For how long what still comes after the last response is dropped.
const LINGER: Limit = Limit {
    idle: 200,
    whole: 500,
};

/// How a site is served.
#[derive(Clone, Copy, Debug, PartialEq, Eq)]
pub struct SiteHabits {
    pub limit: Limit,
    pub config: Config,
}

impl SiteHabits {
    /// A line is short, and so is what a browser says of itself.
    pub fn usual() -> Self
        ensures limit { result.limit ≡ record { idle = IDLE_MILLISECONDS; whole = WHOLE_MILLISECONDS } }
        ensures body { result.config.max_body_len ≡ MAX_REQUEST_BYTES }
    {
        let config = Config::default();
        SiteHabits {
            limit: Limit {
                idle: IDLE_MILLISECONDS,
                whole: WHOLE_MILLISECONDS,
            },
            config: Config {
                max_body_len: MAX_REQUEST_BYTES,
                ..config
            },
        }
    }
}

/// Serves what comes over a connection until it is done, or a stream ends. The bytes and the calls are those of its history.
pub fn serve_site<D: PageDesk + Drop, R: Read, W: Write>(
    connection: &mut Connection,
    site: &mut Site<D>,
    reader: &mut R,
    writer: &mut W,
) -> io::Result<()>
    requires fresh { (history connection.old).calls ≡ [] }
    ensures door { site.new.door ≡ site.old.door }
    // A connection of which no request may ask anything leaves the desk as it was.
    ensures kept { All (λ call. MayAskNothing site.old.door (head_of call.0)) (history connection.new).calls → site.new.desk ≡ site.old.desk }
    ensures done { OnOk result (IsDone (history connection.new)) }
    ensures read { (more : List ℕ) × Consumes (R.remaining reader.old) (R.remaining reader.new) more
        × ((history connection.new).received ≡ (history connection.old).received ++ more) }
    ensures written { (more : List ℕ) × Appends (W.contents writer.old) (W.contents writer.new) more
        × ((history connection.new).sent ≡ (history connection.old).sent ++ more) }
{
    serve(connection, site, reader, writer)
}

/// Serves what comes over these streams, whose waits end by `WouldBlock`. How long its request took the desk isn't counted: the response has its own time.
pub fn serve_over<D: PageDesk + Drop, C: Clock, R: Read + Drop, W: Write + Drop>(
    alloc: Global,
    keys: RandomState,
    clock: &C,
    habits: SiteHabits,
    site: &mut Site<D>,
    reader: R,
    writer: W,
) -> io::Result<()>
    ensures { site.new.door ≡ site.old.door }
{
    let mut reader = LimitedStream::new(reader, clock, habits.limit);
    let mut writer = LimitedStream::new(writer, clock, habits.limit);
    let mut connection = Connection::new(alloc, keys, habits.config);
    serve_site(&mut connection, site, &mut reader, &mut writer)
}

// Drops what still comes for a short while: a socket that is closed with bytes unread would take back the response on its way.
fn linger<C: Clock, R: Read + Drop>(clock: &C, reader: R) {
    let mut reader = LimitedStream::new(reader, clock, LINGER);
    let mut piece = [0; READ_BYTES];
    for _ in 0..MAX_TURNS {
        match reader.read(&mut piece) {
            Ok(0) | Err(_) => return,
            Ok(_) => {}
        }
    }
}

// Whether the socket's calls end in time.
fn is_timed(stream: &TcpStream) -> bool {
    let _ = stream.set_nodelay(true);
    let tick = Some(Duration::from_millis(CALL_MILLISECONDS));
    stream.set_read_timeout(tick).is_ok() && stream.set_write_timeout(tick).is_ok()
}

/// Serves one connection, and closes it. Nobody is served whose silence couldn't be ended.
pub fn serve_stream<D: PageDesk + Drop, C: Clock>(
    alloc: Global,
    keys: RandomState,
    clock: &C,
    habits: SiteHabits,
    site: &mut Site<D>,
    stream: TcpStream,
)
    ensures { site.new.door ≡ site.old.door }
{
    if !is_timed(&stream) {
        return;
    }
    // Who said nothing in time isn't waited for any more.
    if serve_over(alloc, keys, clock, habits, site, &stream, &stream).is_ok() {
        let _ = stream.shutdown(Shutdown::Write);
        linger(clock, &stream);
    }
}
