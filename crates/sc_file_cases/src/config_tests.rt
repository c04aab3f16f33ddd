use sc_config::{ConfigRefused, read};
use sc_value::{List, Text};
use std::test::Fail;

const WHOLE: &[u8] = b"listen = \"127.0.0.1:5061\"
domain = \"home.test\"
salt = \"s1\"
workers = 4
stop_after = 7
journal_steps = 1000
journal_bytes = 65536
epoch_steps = 9
journal_parts = true
reuse = true
record = \"steps.rec\"
hosts = { \"b.test\" = \"10.0.0.2\", \"a.test\" = \"10.0.0.1\" }
[[app]]
name = \"first\"
kind = \"proxy\"
params = [\"x\", \"\"]
expires = -1
[[app]]
name = \"second\"
kind = \"answer\"
";

const REFUSED: [(&[u8], u8, &[u8]); 20] = [
    (b"listen = ", 1, b""),
    (b"\xff", 1, b""),
    (b"zone = 1\nport = 2\n[[app]]\nage = 3\n", 7, b"port"),
    (b"[[app]]\nname = 1\nage = 3\n", 7, b"age"),
    (b"listen = 1\nsalt = 1\napp = 1\n", 2, b"domain"),
    (
        b"listen = 1\ndomain = 1\nsalt = 1\n[[app]]\nname = 1\n",
        2,
        b"kind",
    ),
    (
        b"listen = \"1.2.3.4:0\"\ndomain = \"\"\nsalt = \"\"\napp = []\n",
        3,
        b"listen",
    ),
    (
        b"listen = \"1.2.3.4:1\"\ndomain = \"a b\"\nsalt = \"\"\napp = []\n",
        3,
        b"domain",
    ),
    (
        b"listen = \"1.2.3.4:1\"\ndomain = \"[::1\"\nsalt = \"-\"\napp = []\n",
        3,
        b"domain",
    ),
    (
        b"listen = \"1.2.3.4:1\"\ndomain = \"[fe80::1:2]\"\nsalt = \"-\"\napp = []\n",
        3,
        b"salt",
    ),
    (
        b"listen = \"1.2.3.4:1\"\ndomain = \"a\"\nsalt = \"-\"\napp = []\n",
        3,
        b"salt",
    ),
    (
        b"listen = \"1.2.3.4:1\"\ndomain = \"a\"\nsalt = \"s\"\nworkers = 0\napp = []\n",
        3,
        b"workers",
    ),
    (
        b"listen = \"1.2.3.4:1\"\ndomain = \"a\"\nsalt = \"s\"\napp = []\nhosts = 1\nreuse = 1\n",
        3,
        b"reuse",
    ),
    (
        b"listen = \"1.2.3.4:1\"\ndomain = \"a\"\nsalt = \"s\"\napp = []\nhosts = 1\nrecord = \"\"\n",
        3,
        b"record",
    ),
    (
        b"listen = \"1.2.3.4:1\"\ndomain = \"a\"\nsalt = \"s\"\napp = []\nrecord = \"a\\u0000b\"\n",
        3,
        b"record",
    ),
    (
        b"listen = \"1.2.3.4:1\"\ndomain = \"a\"\nsalt = \"s\"\napp = []\nhosts = { b = 1, a = \"1.2.3\" }\n",
        3,
        b"a",
    ),
    (
        b"listen = \"1.2.3.4:1\"\ndomain = \"a\"\nsalt = \"s\"\napp = []\n",
        3,
        b"app",
    ),
    (
        b"listen = \"1.2.3.4:1\"\ndomain = \"a\"\nsalt = \"s\"\napp = [{ name = \"n\", kind = \"answer\", expires = -2 }]\n",
        3,
        b"expires",
    ),
    (
        b"listen = \"1.2.3.4:1\"\ndomain = \"a\"\nsalt = \"s\"\napp = [{ name = \"n\", kind = \"none\" }, { name = \"n\", kind = \"answer\" }]\n",
        4,
        b"n",
    ),
    (
        b"listen = \"1.2.3.4:1\"\ndomain = \"a\"\nsalt = \"s\"\napp = [{ name = \"n\", kind = \"none\" }]\n",
        5,
        b"none",
    ),
];

fn kinds(rt: HostRuntime) -> Result<List<Text>, Fail> {
    let mut kinds = List::new(rt.alloc());
    kinds.push(Text::from_slice(rt.alloc(), b"answer")?)?;
    kinds.push(Text::from_slice(rt.alloc(), b"proxy")?)?;
    Ok(kinds)
}

#[test]
fn reads_all_keys(rt: HostRuntime) -> Result<(), Fail> {
    let kinds = kinds(rt)?;
    let Ok(config) = read(rt.alloc(), WHOLE, &kinds) else {
        assert!(rt; false);
        return Ok(());
    };
    assert!(rt; config.listen.0 == [127, 0, 0, 1] && config.listen.1.get() == 5061);
    assert!(rt; config.domain.as_bytes() == b"home.test".as_slice());
    assert!(rt; config.salt.as_bytes() == b"s1".as_slice());
    assert!(rt; config.workers.get() == 4 && config.stop_after.get() == 7);
    assert!(rt; config.journal_steps.get() == 1000 && config.journal_bytes.get() == 65536);
    assert!(rt; config.epoch_steps.get() == 9 && config.journal_parts && config.reuse);
    assert!(rt;
        config
            .recording
            .as_ref()
            .is_some_and(|name| name.as_bytes() == b"steps.rec".as_slice())
    );
    let hosts = config.hosts.as_slice();
    assert!(rt; hosts.len() == 2);
    assert!(rt; hosts[0].name.as_bytes() == b"a.test".as_slice() && hosts[0].ip == [10, 0, 0, 1]);
    let apps = config.app.as_slice();
    assert!(rt; apps.len() == 2);
    assert!(rt; apps[0].name.as_bytes() == b"first".as_slice() && apps[0].kind == 1);
    assert!(rt; apps[0].params.len() == 2 && apps[0].expires.get() == -1);
    assert!(rt; apps[1].kind == 0 && apps[1].params.is_empty() && apps[1].expires.get() == 3);
    Ok(())
}

// The kind and the key of a refusal, 0 and an empty key where there is none.
fn refusal(rt: HostRuntime, text: &[u8], kinds: &List<Text>) -> (u8, Text) {
    let none = Text::new(rt.alloc());
    match read(rt.alloc(), text, kinds) {
        Ok(_config) => (0, none),
        Err(cause) => match cause {
            ConfigRefused::Refused { kind, key } => (kind, key),
            ConfigRefused::NoMemory => (0, none),
        },
    }
}

#[test]
fn tells_the_first_fault(rt: HostRuntime) -> Result<(), Fail> {
    let kinds = kinds(rt)?;
    for (text, want, name) in REFUSED {
        let (kind, key) = refusal(rt, text, &kinds);
        assert!(rt; kind == want && key.as_bytes() == name);
    }
    Ok(())
}
