//! Arguments of linkshow, and the lists of words in them. The names of attributes and types, and
//! what is unknown, come from an independent implementation.

use crate::program_arguments::words_of;
use link_lines::{ShowOptions, Types, Without, WordError, read_types, read_without};
use linkshow_program::{Asked, Options, UsageError, read_words};
use std::test::Fail;

/// The options without any argument.
fn defaults() -> Options<'static> {
    Options {
        limit: 1_048_576,
        kernels: false,
        show: ShowOptions::default(),
        file: None,
    }
}

#[test]
fn attributes_are_found_by_name(rt: HostRuntime) {
    assert!(rt; link_lines_raw::find_name(b"rta_Gateway") == Some(b"RTA_GATEWAY".as_slice()));
    assert!(rt; link_lines_raw::find_name(b"RTA_GATEWA") == None);
    // One of a link, one of a link's data, and one that depends on the address family.
    let names: [(&[u8], Option<&[u8]>); 5] = [
        (b"ifla_mtu", Some(b"IFLA_MTU")),
        (b"IFLA_vxlan_ID", Some(b"IFLA_VXLAN_ID")),
        (b"IFLA_AF_SPEC", Some(b"IFLA_AF_SPEC")),
        (b"IFLA_STAT", None),
        (b"", None),
    ];
    for (word, name) in names {
        assert!(rt; link_lines_texts::find_name(word) == name, "{word:?}");
    }
}

#[test]
fn types_and_names_are_read(rt: HostRuntime) -> Result<(), Fail> {
    let types = read_types("newlink,RTM_SETLINK,77,NLMSG_error");
    assert!(rt; matches!(&types, Ok(types) if types.as_slice() == [16, 19, 77, 2].as_slice()));
    assert!(rt; read_types("77,newlinks,x") == Err(WordError::Unknown("newlinks")));
    assert!(rt; read_types("") == Err(WordError::Unknown("")));
    let many = "0,1,2,3,4,5,6,7,0,1,2,3,4,5,6,7,0,1,2,3,4,5,6,7,0,1,2,3,4,5,6,7,8";
    assert!(rt; read_types(many) == Err(WordError::TooMany));
    assert!(rt; matches!(read_types(&many[..63]), Ok(types) if types.len() == 32));
    let Ok(without) = read_without("ifla_mtu,Counters,RTA_GATEWAY,indexes") else {
        return Err(Fail::from("refused"));
    };
    let names = [b"IFLA_MTU".as_slice(), b"RTA_GATEWAY".as_slice()];
    assert!(rt; without.names.as_slice() == names.as_slice());
    assert!(rt; without.counters && without.indexes && !without.numbers);
    assert!(rt; matches!(read_without("numbers"), Ok(without) if without.numbers));
    // The tables of rates of pkt_sched.h, and that of sizes of rtnetlink.h.
    let Ok(without) = read_without("IFLA_MTU,Tables") else {
        return Err(Fail::from("refused"));
    };
    let names: [&[u8]; 6] = [
        b"IFLA_MTU",
        b"TCA_HTB_CTAB",
        b"TCA_HTB_RTAB",
        b"TCA_STAB_DATA",
        b"TCA_TBF_PTAB",
        b"TCA_TBF_RTAB",
    ];
    assert!(rt; without.names.as_slice() == names.as_slice());
    assert!(rt;
        read_without("tables,tables,tables,tables,tables,tables,tables") == Err(WordError::TooMany)
    );
    assert!(rt; read_without("numbers,IFLA_STAT,x") == Err(WordError::Unknown("IFLA_STAT")));
    Ok(())
}

#[test]
fn options_are_read(rt: HostRuntime) -> Result<(), Fail> {
    let line = "--offsets --link --only --without NUMBERS --keep-going --json a";
    let arguments = words_of(rt.alloc(), line)?;
    let mut without = Without::nothing();
    without.numbers = true;
    let expected = Options {
        show: ShowOptions {
            link: Some(b"--only"),
            without,
            offsets: true,
            keep_going: true,
            json: true,
            ..ShowOptions::default()
        },
        file: Some("a"),
        ..defaults()
    };
    assert!(rt; read_words(arguments.as_slice()) == Ok(Asked::Show(expected)));
    let line = "--only getlink --only 2 --limit 16 --kernels --without-numbers";
    let arguments = words_of(rt.alloc(), line)?;
    let mut only = Types::new();
    only.push(2);
    let expected = Options {
        limit: 16,
        kernels: true,
        show: ShowOptions {
            without_numbers: true,
            only: Some(only),
            ..ShowOptions::default()
        },
        file: None,
    };
    assert!(rt; read_words(arguments.as_slice()) == Ok(Asked::Show(expected)));
    Ok(())
}

#[test]
fn usage_errors_have_the_first_unknown_word(rt: HostRuntime) -> Result<(), Fail> {
    let cases: [(&str, UsageError<'_>); 6] = [
        (
            "--without ifla_mtu,IFLA_STAT,x --only x",
            UsageError::UnknownName("IFLA_STAT"),
        ),
        (
            "--only 2,newlinks --without x",
            UsageError::UnknownType("newlinks"),
        ),
        ("--limit 15 --only x", UsageError::InvalidLimit("15")),
        ("--link", UsageError::Usage),
        ("a --only x", UsageError::Usage),
        ("--help --only x", UsageError::Usage),
    ];
    for (line, error) in cases {
        let arguments = words_of(rt.alloc(), line)?;
        assert!(rt; read_words(arguments.as_slice()) == Err(error), "{line}");
    }
    Ok(())
}
