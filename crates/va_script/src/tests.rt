// The script as it is written.
use crate::Script;
use crate::generator::Generator;
use std::test::Fail;
use va_core::Memory;

fn no_memory(_: Memory) -> Fail {
    Fail::new("memory")
}

#[test]
fn the_first_draw_is_as_it_was_computed(rt: HostRuntime) -> Result<(), Fail> {
    assert_eq!(rt; Generator::new(1).byte(), 108);
    assert_eq!(rt;
        Generator::new(1).vector(),
        [108, 130, 165, 98, 203, 128, 141, 16]
    );
    Ok(())
}

#[test]
fn the_script_for_1_has_36_lines(rt: HostRuntime) -> Result<(), Fail> {
    let alloc = rt.alloc();
    let lines: [&[u8]; 36] = [
        b"create 8 32 1",
        b"insert 1 108,130,165,98,203,128,141,16",
        b"requant",
        b"convert 4294967295",
        b"knn 10 214,50,190,137,200,81,62,191",
        b"knn 10 108,146,159,52,221,250,140,159",
        b"knn 10 99,201,150,14,246,227,72,163",
        b"knn 10 82,140,138,63,204,47,4,78",
        b"knn 10 57,163,252,91,148,73,47,143",
        b"knn 10 3,46,117,73,162,0,152,249",
        b"knn 10 91,239,214,18,72,162,60,215",
        b"knn 10 168,22,136,57,233,31,128,53",
        b"knn 10 88,250,201,246,9,93,156,146",
        b"knn 10 121,25,112,19,35,66,170,4",
        b"knn 10 22,139,173,10,230,219,177,133",
        b"knn 10 93,220,180,116,144,50,184,254",
        b"knn 10 56,166,104,75,81,74,51,219",
        b"knn 10 191,230,71,109,94,234,223,158",
        b"knn 10 154,36,178,104,171,146,59,233",
        b"knn 10 40,91,218,150,147,192,143,219",
        b"knn 10 67,236,196,105,159,69,95,12",
        b"knn 10 137,30,145,24,179,120,197,75",
        b"knn 10 49,94,242,110,52,101,169,63",
        b"knn 10 97,39,98,92,54,169,229,77",
        b"knn 10 66,202,93,168,126,7,176,63",
        b"knn 10 203,118,168,114,6,57,123,129",
        b"knn 10 243,120,4,32,229,66,122,32",
        b"knn 10 132,160,193,76,245,214,101,212",
        b"knn 10 117,171,111,80,175,191,10,249",
        b"knn 10 45,139,69,235,191,185,90,250",
        b"knn 10 26,71,230,23,86,249,193,226",
        b"knn 10 210,78,194,186,7,28,128,248",
        b"knn 10 166,150,21,190,59,21,72,214",
        b"knn 10 226,85,96,245,207,0,47,218",
        b"knn 10 167,74,157,94,194,0,4,67",
        b"knn 10 35,198,112,83,242,101,236,91",
    ];
    let mut script = Script::new(1);
    for wanted in lines {
        let line = script.next_line(alloc).map_err(no_memory)?;
        assert_eq!(rt; line.as_ref().map(|line| line.as_slice()), Some(wanted));
    }
    assert!(rt; script.next_line(alloc).map_err(no_memory)?.is_none());
    assert!(rt; script.next_line(alloc).map_err(no_memory)?.is_none());
    Ok(())
}
