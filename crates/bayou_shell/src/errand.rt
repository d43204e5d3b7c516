//! What the words leave to be done.
use bayou_errands::connected::Call;
use bayou_errands::exported::Extract;
use bayou_errands::imported::Intake;
use bayou_errands::keyed::NewKey;
use bayou_errands::renewed::Renewal;
use bayou_errands::served::Service;
use bayou_errands::shown::Window;
use bayou_script::NetworkScript;
use bayou_tasks::checked::Checkup;
use bayou_tasks::explained::Explaining;

/// What is still to be done once the words were read, by who has threads and sockets.
#[derive(Drop)]
pub enum Errand {
    /// Nothing: what was asked for was done or refused, and this is the exit status.
    Done(u8),
    /// To run a script over sockets, with its servers' journals in this folder.
    Net {
        folder: String,
        script: NetworkScript,
    },
    /// To have a server live.
    Serve(Service),
    /// To ask servers what lines say.
    Connect(Call),
    /// To make a key.
    Key(NewKey),
    /// To make the journal of a new store.
    Renew(Renewal),
    /// To print the rows of a server.
    Export(Extract),
    /// To put lines into a store.
    Import(Intake),
    /// To show a store on a page.
    Web(Window),
    /// To tell every fault of a text.
    Check(Checkup),
    /// To audit a file, and to tell more of it than the verdict and the survey.
    Explain(Explaining),
}
