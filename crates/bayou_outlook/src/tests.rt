//! Outlooks are kept and read again; other texts are none.
use crate::outlook::{Outlook, OwnWrite};
use crate::reading::read_outlook;
use crate::spelling::spell_outlook;
use bayou_base::limits::MAX_OWN_WRITES;
use bayou_base::{SERVERS, ServerId, Vector, Wid};
use bayou_final::Standing;
use bayou_wire::Became;
use std::alloc::Global;
use std::process::Abort;
use std::rt::HostRuntime;
use std::str;

fn server(rt: &impl Abort, index: u8) -> ServerId {
    ServerId::new(index).expect(rt, "no server")
}

fn wid(rt: &impl Abort, origin: u8, seq: u32) -> Wid {
    Wid::new(server(rt, origin), seq).expect(rt, "no name")
}

fn vector(rt: &impl Abort, first: [u32; 3]) -> Vector {
    let mut counts = [0; SERVERS];
    counts[..3].copy_from_slice(&first);
    Vector::from_counts(counts).expect(rt, "no vector")
}

fn made(rt: &impl Abort, origin: u8, seq: u32, told: Option<Became>) -> OwnWrite {
    OwnWrite {
        wid: wid(rt, origin, seq),
        clock: seq.saturating_add(3),
        told,
    }
}

// The server told this.
fn hear(rt: &impl Abort, outlook: &mut Outlook, index: u8, first: [u32; 3]) {
    let view = vector(rt, first);
    outlook.hear(server(rt, index), &view);
}

// Server 1 accepted a Write of ours, and reported this of it.
fn make(rt: &impl Abort, outlook: &mut Outlook, seq: u32, told: Option<Became>) {
    let gone = outlook.made(made(rt, 1, seq, told)).expect(rt, "memory");
    assert!(rt; gone.is_none());
}

// One of three servers, of which two were heard.
fn outlook(rt: &impl Abort, alloc: Global) -> Outlook {
    let mut outlook = Outlook::of(alloc, 3, vector(rt, [1, 0, 2]));
    hear(rt, &mut outlook, 0, [1, 0, 2]);
    hear(rt, &mut outlook, 2, [1, 5, 65_536]);
    make(rt, &mut outlook, 2, None);
    make(rt, &mut outlook, 3, Some(Became::Updated));
    make(rt, &mut outlook, 4, Some(Became::Merged(4)));
    make(rt, &mut outlook, 5, Some(Became::Nothing));
    outlook
}

const TEXT: &str =
    "bayou-views-1 3\nfinal 1,0,2\nview 0 1,0,2\nview 2 1,5,65536\nown 1:2 5 untold\nown 1:3 6 update\nown 1:4 7 merge 4\nown 1:5 8 none\n";

#[test]
fn an_outlook_is_spelled_and_read(rt: HostRuntime) {
    let alloc = Global::new(rt.memory());
    let text = spell_outlook(alloc, &outlook(&rt, alloc)).expect(&rt, "memory");
    assert!(rt; text.as_str().starts_with(TEXT));
    assert!(rt; text.len() == TEXT.len() + 69);
    let read = read_outlook(alloc, text.as_str())
        .expect(&rt, "memory")
        .expect(&rt, "memory");
    assert!(rt; spell_outlook(alloc, &read).expect(&rt, "memory").as_str() == text.as_str());
    assert!(rt; read.own().len() == 4 && read.finality().count() == 3);
}

// With its right sum.
fn with_sum(rt: &impl Abort, alloc: Global, lines: &str) -> String {
    let mut text = String::from_str(alloc, lines).expect(rt, "memory");
    let sum = crate::spelling::sum_of(lines.as_bytes());
    text.push_str("sum ").expect(rt, "memory");
    text.push_str(str::from_utf8(&sum).expect(rt, "memory"))
        .expect(rt, "memory");
    text.push_str("\n").expect(rt, "memory");
    text
}

#[test]
fn another_text_keeps_none(rt: HostRuntime) {
    let alloc = Global::new(rt.memory());
    for lines in [
        "",
        "bayou-views-1 3\n",
        "bayou-views-2 3\nfinal 0,0,0\n",
        "bayou-views-1 0\nfinal 0\n",
        "bayou-views-1 17\nfinal 0,0,0\n",
        "bayou-views-1 3\nfinal 0,0\n",
        "bayou-views-1 3\nfinal 0,0,0,0\n",
        "bayou-views-1 3\nfinal 0,0,65537\n",
        "bayou-views-1 3\nfinal 0,0,x\n",
        "bayou-views-1 3\nview 0 0,0,0\n",
        "bayou-views-1 3\nfinal 0,0,0\nview 3 0,0,0\n",
        "bayou-views-1 3\nfinal 0,0,0\nview 0 0,0\n",
        "bayou-views-1 3\nfinal 0,0,0\nview 0 0,0,0\nview 0 0,0,0\n",
        "bayou-views-1 3\nfinal 0,0,0\nown 3:1 1 update\n",
        "bayou-views-1 3\nfinal 0,0,0\nown 0:0 1 update\n",
        "bayou-views-1 3\nfinal 0,0,0\nown 0:1 1 merge\n",
        "bayou-views-1 3\nfinal 0,0,0\nown 0:1 1 merge 256\n",
        "bayou-views-1 3\nfinal 0,0,0\nown 0:1 update\n",
        "bayou-views-1 3\nfinal 0,0,0\nelse\n",
        "bayou-views-1 3\nfinal 0,0,0\n\n",
    ] {
        let text = with_sum(&rt, alloc, lines);
        assert!(rt;
            read_outlook(alloc, text.as_str())
                .expect(&rt, "memory")
                .is_none()
        );
    }
    let text = with_sum(&rt, alloc, TEXT);
    assert!(rt;
        read_outlook(alloc, text.as_str())
            .expect(&rt, "memory")
            .is_some()
    );
    for end in 0..text.len() {
        let front = str::from_utf8(&text.as_bytes()[..end]).expect(&rt, "no text");
        assert!(rt; read_outlook(alloc, front).expect(&rt, "memory").is_none());
    }
}

#[test]
fn the_oldest_own_write_goes(rt: HostRuntime) {
    let alloc = Global::new(rt.memory());
    let mut outlook = Outlook::new(alloc, 3);
    for seq in 1..=MAX_OWN_WRITES as u32 {
        assert!(rt;
            outlook
                .made(made(&rt, 0, seq, None))
                .expect(&rt, "memory")
                .is_none()
        );
    }
    let gone = outlook.made(made(&rt, 0, 65, None)).expect(&rt, "memory");
    assert!(rt; gone == Some(made(&rt, 0, 1, None)));
    assert!(rt; outlook.own().len() == MAX_OWN_WRITES && outlook.own()[0] == made(&rt, 0, 2, None));
}

#[test]
fn what_is_news_is_told_once(rt: HostRuntime) {
    let alloc = Global::new(rt.memory());
    let mut outlook = Outlook::new(alloc, 1);
    outlook.made(made(&rt, 0, 1, None)).expect(&rt, "memory");
    assert!(rt; outlook.told(0, Became::Updated) == Some(Standing::Tentative));
    assert!(rt; outlook.told(0, Became::Updated).is_none());
    assert!(rt; outlook.told(0, Became::Merged(1)) == Some(Standing::Changed));
    assert!(rt; outlook.told(1, Became::Merged(1)).is_none());
    hear(&rt, &mut outlook, 0, [1, 0, 0]);
    assert!(rt; outlook.settle(&vector(&rt, [1, 0, 0])));
    assert!(rt; outlook.told(0, Became::Merged(1)) == Some(Standing::Final));
    assert!(rt; outlook.own().is_empty());
}
