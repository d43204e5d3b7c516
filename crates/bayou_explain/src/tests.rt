//! What explains a broken history, from outside of the program.
use crate::explained::{Explained, explain};
use crate::located::locate;
use crate::refused::explain_forged;
use crate::telling::{explained_text, forged_text};
use bayou_judge::{BadEvidence, lend_dumps, survey};
use bayou_script::{AuditDraft, AuditFile, TextReader};
use std::alloc::Global;
use std::process::Abort;

const BROKEN: &str = concat!(
    "[\"servers\",2]\n",
    "\n",
    "[\"entry\",0,1,[\"mw\"],0,\"write\",1,1,[0,0]]\n",
    "[\"entry\",0,2,[\"mw\"],1,\"write\",1,1,[0,0]]\n",
    "[\"held\",0,[0,1,1,[0,0],{\"update\":[[\"put\",\"door\",\"closed\"]]}]]\n",
    "[\"held\",1,[1,1,1,[0,0],{\"update\":[[\"put\",\"alarm\",\"on\"]]}]]\n"
);

const TOLD: &str = concat!(
    "session 0, places 1 and 2: Monotonic Writes\n",
    "  place 1: line 3  [\"entry\",0,1,[\"mw\"],0,\"write\",1,1,[0,0]]\n",
    "  place 2: line 4  [\"entry\",0,2,[\"mw\"],1,\"write\",1,1,[0,0]]\n",
    "  0:1 at server 0: line 5  [\"held\",0,[0,1,1,[0,0],{\"update\":[[\"put\",\"door\",\"closed\"]]}]]\n",
    "  0:1 at server 1: no line\n",
    "  the Write at place 1 is 0:1; server 1 has the Write of place 2 without that one before it\n"
);

const FORGED: [(&str, &str); 7] = [
    (
        "[\"entry\",0,2,[],0,\"refused\"]\n[\"entry\",0,2,[],0,\"refused\"]\n",
        "entry 1 can't be true\n  the entry: line 3  [\"entry\",0,2,[],0,\"refused\"]\n  against: line 2  [\"entry\",0,2,[],0,\"refused\"]\n  its place isn't above the one of that earlier entry of its session\n",
    ),
    (
        "[\"entry\",0,1,[],0,\"refused\"]\n[\"entry\",0,2,[\"mr\"],0,\"refused\"]\n",
        "entry 1 can't be true\n  the entry: line 3  [\"entry\",0,2,[\"mr\"],0,\"refused\"]\n  against: line 2  [\"entry\",0,1,[],0,\"refused\"]\n  its session asked for something else in that earlier entry\n",
    ),
    (
        "[\"entry\",0,1,[],0,\"write\",1,1,[0,0]]\n",
        "entry 0 can't be true\n  the entry: line 2  [\"entry\",0,1,[],0,\"write\",1,1,[0,0]]\n  its server's dump hasn't the Write that was acknowledged: it was lost, or the dump is older\n",
    ),
    (
        "[\"entry\",0,1,[],0,\"write\",1,2,[0,0]]\n[\"held\",0,[0,1,1,[0,0],{}]]\n",
        "entry 0 can't be true\n  the entry: line 2  [\"entry\",0,1,[],0,\"write\",1,2,[0,0]]\n  against: line 3  [\"held\",0,[0,1,1,[0,0],{}]]\n  its server's dump has that Write with another clock or another past\n",
    ),
    (
        "[\"entry\",0,1,[],0,\"write\",1,1,[0,0]]\n[\"held\",0,[0,1,1,[0,0],{}]]\n[\"entry\",1,1,[],0,\"write\",1,1,[0,0]]\n",
        "entry 1 can't be true\n  the entry: line 4  [\"entry\",1,1,[],0,\"write\",1,1,[0,0]]\n  against: line 2  [\"entry\",0,1,[],0,\"write\",1,1,[0,0]]\n  that earlier entry names the same Write\n",
    ),
    (
        "[\"entry\",0,1,[],0,\"read\",\"a\",[1,0]]\n",
        "entry 0 can't be true\n  the entry: line 2  [\"entry\",0,1,[],0,\"read\",\"a\",[1,0]]\n  its server never had the database that the read was served from\n",
    ),
    (
        "[\"entry\",0,1,[],1,\"read\",\"a\",[0,0]]\n[\"entry\",0,2,[],1,\"read\",\"a\",[0,1]]\n",
        "entry 1 can't be true\n  the entry: line 3  [\"entry\",0,2,[],1,\"read\",\"a\",[0,1]]\n  its server never had the database that the read was served from\n",
    ),
];

fn read(rt: &impl Abort, alloc: Global, text: &str) -> AuditFile {
    let mut reader = TextReader::<AuditDraft>::new(alloc);
    let Ok(()) = reader.feed(alloc, text.as_bytes()) else {
        panic!(rt; "no audit file");
    };
    match reader.finish(alloc) {
        Ok(file) => file,
        Err(_) => panic!(rt; "no audit file"),
    }
}

#[test]
fn a_breach_is_told_by_its_lines(rt: HostRuntime) {
    let alloc = rt.alloc();
    let file = read(&rt, alloc, BROKEN);
    let dumps = lend_dumps(&file.dumps);
    let surveyed = survey(alloc, file.count, &file.entries, &dumps).expect(&rt, "no memory");
    let Ok(surveyed) = surveyed else {
        panic!(rt; "no evidence");
    };
    let lines = locate(alloc, BROKEN.as_bytes()).expect(&rt, "no memory");
    let list: Vec<Explained<'_>> = explain(alloc, &lines, &surveyed).expect(&rt, "no memory");
    assert!(rt; list.len() == 1);
    let told = explained_text(alloc, &list[0]).expect(&rt, "no memory");
    assert!(rt; told.as_str() == TOLD);
}

// What explains the first entry of the text that can't be true.
fn told_of(rt: &impl Abort, alloc: Global, text: &str) -> String {
    let file = read(rt, alloc, text);
    let dumps = lend_dumps(&file.dumps);
    let surveyed = survey(alloc, file.count, &file.entries, &dumps).expect(rt, "no memory");
    let Err(BadEvidence::Forged(number)) = surveyed else {
        panic!(rt; "no entry is forged");
    };
    let lines = locate(alloc, text.as_bytes()).expect(rt, "no memory");
    let forged = explain_forged(&lines, number).expect(rt, "no such entry");
    forged_text(alloc, number, &forged).expect(rt, "no memory")
}

#[test]
fn an_entry_that_cannot_be_true_is_told_by_its_lines(rt: HostRuntime) {
    let alloc = rt.alloc();
    for (lines, wanted) in FORGED {
        let text = format!(in alloc; "[\"servers\",2]\n{lines}").expect(&rt, "no memory");
        let told = told_of(&rt, alloc, text.as_str());
        assert!(rt; told.as_str() == wanted);
    }
}
