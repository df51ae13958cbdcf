use super::scripted::{REPLIES, link_of, tell_commands};
use super::written;
use mg_jobs::{Run, parse_script, run_jobs};
use mg_link::CountedIds;
use mg_script::text_of;
use mg_store::Store;
use std::process::Abort;

/// What a script prints over a link that is to be answered so, with a `|` for each line feed, and which commands it sent. The store
/// of the run stays empty, and so its last two lines say nothing.
pub(super) fn ran(rt: &(impl Abort + AllocGlobal), given: &str, pend: u32) -> String {
    let alloc = rt.alloc();
    let (words, script) = given.split_once('|').unwrap_or((given, ""));
    let mut link = link_of(rt, REPLIES, words, pend);
    let mut ids = CountedIds::new([0, 0, 0, 0]);
    let script = parse_script(alloc, script.as_bytes()).expect(rt, "a script");
    let played = run_jobs(
        alloc,
        &mut link,
        &mut ids,
        script.moment,
        script.jobs.as_slice(),
        script.order.as_slice(),
    )
    .expect(rt, "a run");
    let run = Run {
        script,
        outcomes: played.outcomes,
        store: Store::new(alloc),
        logs: Vec::new(alloc),
        turns: Vec::new(alloc),
    };
    let text = written(rt, text_of(alloc, &run));
    let mut told = written(rt, text.replace(alloc, "\n", "|"));
    tell_commands(rt, &mut told, &link);
    told
}

/// Each line is how the commands of a script are answered, the script, what it prints, and which commands it sends: runs of streams,
/// watches of a collection that is dropped and openings behind its end, and puts. The replies that stand as digits are those of the
/// store to such a watch, byte by byte as its own rows have them.
pub(super) const ROWS: &str =
    r#"1- k.|{"jobs":[{"calls":0,"job":"follow","on":"db.coll"}],"order":[<30*0,>0]}~job 0 follow opened|job 0 token none alive yes|job 0 follow done|open none|commands 0|/aggregate {}/killCursors [{"$int64":"1"}]
0-|{"jobs":[{"calls":0,"job":"follow","on":"db.coll"}],"order":[<30*0,>0]}~job 0 follow opened|job 0 token none alive no|job 0 follow done|open none|commands 0|/aggregate {}
1- k.|{"jobs":[{"calls":1,"job":"follow","on":"db.coll"}],"order":[<30*0,>0]}~job 0 follow opened|job 0 call 0 nothing|job 0 token none alive yes|job 0 follow done|open none|commands 0|/aggregate {}/killCursors [{"$int64":"1"}]
1- l.|{"jobs":[{"calls":0,"job":"follow","on":"db.coll"}],"order":[<30*0,>0]}~job 0 follow opened|job 0 token none alive yes|job 0 follow close failed E2|open none|commands 0|/aggregate {}/killCursors [{"$int64":"1"}]
1e k.|{"jobs":[{"calls":0,"job":"follow","on":"db.coll"}],"order":[<30*0,>0]}~job 0 follow opened|job 0 token none alive yes|job 0 follow done|open none|commands 0|/aggregate {}/killCursors [{"$int64":"1"}]
1e k.|{"jobs":[{"calls":1,"job":"follow","on":"db.coll"}],"order":[<30*0,>0]}~job 0 follow opened|job 0 call 0 event {"_id":2}|job 0 token 2 alive yes|job 0 follow done|open none|commands 0|/aggregate {}/killCursors [{"$int64":"1"}]
1m 2- k. k.|{"jobs":[{"calls":1,"job":"follow","on":"db.coll","start":{"startAt":{"$timestamp":{"i":1,"t":9}}}}],"order":[<30*0,>0]}~job 0 follow opened|job 0 call 0 nothing|job 0 token none alive yes|job 0 follow done|open none|commands 0|/aggregate {"startAtOperationTime":{"$timestamp":{"i":1,"t":9}}}/aggregate {"startAtOperationTime":{"$timestamp":{"i":1,"t":9}}}/killCursors [{"$int64":"1"}]/killCursors [{"$int64":"2"}]
1n k.|{"jobs":[{"calls":0,"job":"follow","on":"db.coll","start":{"resumeAfter":4}}],"order":[<30*0,>0]}~job 0 follow opened|job 0 token 4 alive yes|job 0 follow done|open none|commands 0|/aggregate {"resumeAfter":4}/killCursors [{"$int64":"1"}]
1n k.|{"jobs":[{"calls":1,"job":"follow","on":"db.coll","start":{"resumeAfter":4}}],"order":[<30*0,>0]}~job 0 follow opened|job 0 call 0 E9|job 0 token 4 alive yes|job 0 follow done|open none|commands 0|/aggregate {"resumeAfter":4}/killCursors [{"$int64":"1"}]
1n k.|{"jobs":[{"calls":2,"job":"follow","on":"db.coll","start":{"resumeAfter":4}}],"order":[<30*0,>0]}~job 0 follow opened|job 0 call 0 E9|job 0 call 1 event {"_id":2}|job 0 token 2 alive yes|job 0 follow done|open none|commands 0|/aggregate {"resumeAfter":4}/killCursors [{"$int64":"1"}]
1- l. l. l. k.|{"jobs":[{"calls":2,"job":"follow","on":"db.coll"}],"order":[<30*0,>0]}~job 0 follow opened|job 0 call 0 nothing|job 0 call 1 E2|job 0 token none alive yes|job 0 follow done|open none|commands 0|/aggregate {}/getMore 1/aggregate {"startAtOperationTime":{"$timestamp":{"i":1,"t":7}}}/aggregate {"startAtOperationTime":{"$timestamp":{"i":1,"t":7}}}/killCursors [{"$int64":"1"}]
1e l. 2- k. k.|{"jobs":[{"calls":2,"job":"follow","on":"db.coll"}],"order":[<30*0,>0]}~job 0 follow opened|job 0 call 0 event {"_id":2}|job 0 call 1 nothing|job 0 token 2 alive yes|job 0 follow done|open none|commands 0|/aggregate {}/getMore 1/aggregate {"resumeAfter":2}/killCursors [{"$int64":"1"}]/killCursors [{"$int64":"2"}]
1b 1- k.|{"jobs":[{"calls":1,"job":"follow","on":"db.coll"}],"order":[<30*0,>0]}~job 0 follow opened|job 0 call 0 event {"_id":3}|job 0 token 3 alive yes|job 0 follow done|open none|commands 0|/aggregate {}/killCursors [{"$int64":"1"}]
1b 1- k.|{"jobs":[{"calls":2,"job":"follow","on":"db.coll"}],"order":[<30*0,>0]}~job 0 follow opened|job 0 call 0 event {"_id":3}|job 0 call 1 E9|job 0 token 3 alive yes|job 0 follow done|open none|commands 0|/aggregate {}/killCursors [{"$int64":"1"}]
1b 1- k.|{"jobs":[{"calls":3,"job":"follow","on":"db.coll"}],"order":[<30*0,>0]}~job 0 follow opened|job 0 call 0 event {"_id":3}|job 0 call 1 E9|job 0 call 2 event {"_id":2}|job 0 token 2 alive yes|job 0 follow done|open none|commands 0|/aggregate {}/killCursors [{"$int64":"1"}]
1b 1- k.|{"jobs":[{"calls":4,"job":"follow","on":"db.coll"}],"order":[<30*0,>0]}~job 0 follow opened|job 0 call 0 event {"_id":3}|job 0 call 1 E9|job 0 call 2 event {"_id":2}|job 0 call 3 nothing|job 0 token 2 alive yes|job 0 follow done|open none|commands 0|/aggregate {}/getMore 1/killCursors [{"$int64":"1"}]
l. l.|{"jobs":[{"calls":0,"job":"follow","on":"db.coll"}],"order":[<30*0,>0]}~job 0 follow failed E2|open none|commands 0|/aggregate {}/aggregate {}
wo k.|{"jobs":[{"calls":1,"job":"follow","on":"db.coll"}],"order":[<30*0,>0]}~job 0 follow opened|job 0 call 0 nothing|job 0 token {"_data":"0000000000000000"} alive yes|job 0 follow done|open none|commands 0|/aggregate {}/killCursors [{"$int64":"1"}]
wo wi|{"jobs":[{"calls":2,"job":"follow","on":"db.coll"}],"order":[<30*0,>0]}~job 0 follow opened|job 0 call 0 nothing|job 0 call 1 event {"_id":{"_data":"0000000000000001"},"clusterTime":{"$timestamp":{"i":1,"t":1}},"documentKey":{"_id":2},"fullDocument":{"_id":2},"ns":{"coll":"coll","db":"db"},"operationType":"insert"}|job 0 token {"_data":"0000000000000001"} alive no|job 0 follow done|open none|commands 0|/aggregate {}/getMore 1
wo wi|{"jobs":[{"calls":5,"job":"follow","on":"db.coll"}],"order":[<30*0,>0]}~job 0 follow opened|job 0 call 0 nothing|job 0 call 1 event {"_id":{"_data":"0000000000000001"},"clusterTime":{"$timestamp":{"i":1,"t":1}},"documentKey":{"_id":2},"fullDocument":{"_id":2},"ns":{"coll":"coll","db":"db"},"operationType":"insert"}|job 0 call 2 event {"_id":{"_data":"0000000000000002"},"clusterTime":{"$timestamp":{"i":1,"t":2}},"ns":{"coll":"coll","db":"db"},"operationType":"drop"}|job 0 call 3 event {"_id":{"_data":"0000000000000003"},"clusterTime":{"$timestamp":{"i":1,"t":3}},"operationType":"invalidate"}|job 0 call 4 nothing|job 0 token {"_data":"0000000000000003"} alive no|job 0 follow done|open none|commands 0|/aggregate {}/getMore 1
wo wd wn wn k.|{"jobs":[{"calls":5,"job":"follow","on":"db"}],"order":[<30*0,>0]}~job 0 follow opened|job 0 call 0 nothing|job 0 call 1 event {"_id":{"_data":"0000000000000001"},"clusterTime":{"$timestamp":{"i":1,"t":1}},"documentKey":{"_id":2},"fullDocument":{"_id":2},"ns":{"coll":"coll","db":"db"},"operationType":"insert"}|job 0 call 2 event {"_id":{"_data":"0000000000000002"},"clusterTime":{"$timestamp":{"i":1,"t":2}},"ns":{"coll":"coll","db":"db"},"operationType":"drop"}|job 0 call 3 nothing|job 0 call 4 nothing|job 0 token {"_data":"0000000000000003"} alive yes|job 0 follow done|open none|commands 0|/aggregate {}/getMore 1/getMore 1/getMore 1/killCursors [{"$int64":"1"}]
wo wd wn wn k.|{"jobs":[{"calls":5,"job":"follow","on":""}],"order":[<30*0,>0]}~job 0 follow opened|job 0 call 0 nothing|job 0 call 1 event {"_id":{"_data":"0000000000000001"},"clusterTime":{"$timestamp":{"i":1,"t":1}},"documentKey":{"_id":2},"fullDocument":{"_id":2},"ns":{"coll":"coll","db":"db"},"operationType":"insert"}|job 0 call 2 event {"_id":{"_data":"0000000000000002"},"clusterTime":{"$timestamp":{"i":1,"t":2}},"ns":{"coll":"coll","db":"db"},"operationType":"drop"}|job 0 call 3 nothing|job 0 call 4 nothing|job 0 token {"_data":"0000000000000003"} alive yes|job 0 follow done|open none|commands 0|/aggregate {"allChangesForCluster":true}/getMore 1/getMore 1/getMore 1/killCursors [{"$int64":"1"}]
9300000003637572736f720067000000126964000100000000000000026e7300060000006170702e6300046669727374426174636800050000000003706f73744261746368526573756d65546f6b656e0021000000025f64617461001100000030303030303030303030303030303032000000116f7065726174696f6e54696d65000100000002000000106f6b000100000000 f700000003637572736f7200e2000000126964000100000000000000026e7300060000006170702e6300046e6578744261746368008100000003300079000000035f69640021000000025f646174610011000000303030303030303030303030303030330000026f7065726174696f6e54797065000500000064726f700011636c757374657254696d65000100000003000000036e73001d00000002646200040000006170700002636f6c6c0002000000630000000003706f73744261746368526573756d65546f6b656e0021000000025f64617461001100000030303030303030303030303030303033000000106f6b000100000000 dc00000003637572736f7200c7000000126964000000000000000000026e7300060000006170702e6300046e657874426174636800660000000330005e000000035f69640021000000025f646174610011000000303030303030303030303030303030340000026f7065726174696f6e54797065000b000000696e76616c69646174650011636c757374657254696d65000100000004000000000003706f73744261746368526573756d65546f6b656e0021000000025f64617461001100000030303030303030303030303030303034000000106f6b000100000000|{"jobs":[{"calls":4,"job":"follow","on":"app.c"}],"order":[<30*0,>0]}~job 0 follow opened|job 0 call 0 nothing|job 0 call 1 event {"_id":{"_data":"0000000000000003"},"clusterTime":{"$timestamp":{"i":1,"t":3}},"ns":{"coll":"c","db":"app"},"operationType":"drop"}|job 0 call 2 event {"_id":{"_data":"0000000000000004"},"clusterTime":{"$timestamp":{"i":1,"t":4}},"operationType":"invalidate"}|job 0 call 3 nothing|job 0 token {"_data":"0000000000000004"} alive no|job 0 follow done|open none|commands 0|/aggregate {}/getMore 1/getMore 1
no|{"jobs":[{"calls":0,"job":"follow","on":"db.coll","start":{"resumeAfter":{"_data":"0000000000000003"}}}],"order":[<30*0,>0]}~job 0 follow failed E3 260|open none|commands 0|/aggregate {"resumeAfter":{"_data":"0000000000000003"}}
wb k.|{"jobs":[{"calls":0,"job":"follow","on":"db.coll","start":{"startAfter":{"_data":"0000000000000003"}}}],"order":[<30*0,>0]}~job 0 follow opened|job 0 token {"_data":"0000000000000003"} alive yes|job 0 follow done|open none|commands 0|/aggregate {"startAfter":{"_data":"0000000000000003"}}/killCursors [{"$int64":"1"}]
1|{"jobs":[{"chunk":4,"db":"db","id":7,"job":"put","name":"f","pieces":[]}],"order":[<30*0,>0]}~job 0 put ok 0|open none|commands 0|/insert "fs.files"
1 1|{"jobs":[{"chunk":4,"db":"db","id":7,"job":"put","name":"f","pieces":["66"]}],"order":[<30*0,>0]}~job 0 put ok 1|open none|commands 0|/insert "fs.chunks"/insert "fs.files"
r 1 1 1|{"jobs":[{"chunk":4,"db":"db","id":7,"job":"put","name":"f","pieces":["6162636465"]}],"order":[<30*0,>0]}~job 0 put ok 5|open none|commands 0|/find "fs.files"/insert "fs.chunks"/insert "fs.chunks"/insert "fs.files"
r 1 1 1 1|{"jobs":[{"chunk":4,"db":"db","id":7,"job":"put","name":"f","pieces":["6162636465","6162636465"]}],"order":[<30*0,>0]}~job 0 put ok 10|open none|commands 0|/find "fs.files"/insert "fs.chunks"/insert "fs.chunks"/insert "fs.chunks"/insert "fs.files"
r l l|{"jobs":[{"chunk":4,"db":"db","id":7,"job":"put","name":"f","pieces":["6162636465"]}],"order":[<30*0,>0]}~job 0 put E11g|open none|commands 0|/find "fs.files"/insert "fs.chunks"/delete "fs.chunks"
r l m|{"jobs":[{"chunk":4,"db":"db","id":7,"job":"put","name":"f","pieces":["6162636465"]}],"order":[<30*0,>0]}~job 0 put E1|open none|commands 0|/find "fs.files"/insert "fs.chunks"/delete "fs.chunks"
r 1 1 l 1|{"jobs":[{"chunk":4,"db":"db","id":7,"job":"put","name":"f","pieces":["6162636465"]}],"order":[<30*0,>0]}~job 0 put E2|open none|commands 0|/find "fs.files"/insert "fs.chunks"/insert "fs.chunks"/insert "fs.files"/delete "fs.chunks"
e t f t c 1 1 1|{"jobs":[{"chunk":4,"db":"db","id":7,"job":"put","name":"f","pieces":["6162636465"]}],"order":[<30*0,>0]}~job 0 put ok 5|open none|commands 0|/find "fs.files"/create "fs.files"/listIndexes "fs.files"/create "fs.chunks"/listIndexes "fs.chunks"/insert "fs.chunks"/insert "fs.chunks"/insert "fs.files"
e 1 c 1 t e 1 1 1 1|{"jobs":[{"chunk":4,"db":"db","id":7,"job":"put","name":"f","pieces":["6162636465"]}],"order":[<30*0,>0]}~job 0 put ok 5|open none|commands 0|/find "fs.files"/create "fs.files"/listIndexes "fs.files"/createIndexes "fs.files"/create "fs.chunks"/listIndexes "fs.chunks"/createIndexes "fs.chunks"/insert "fs.chunks"/insert "fs.chunks"/insert "fs.files""#;

/// The same of a put that writes more chunks than one command holds.
pub(super) const LONG: &str =
    r#"r 1 1|{"jobs":[{"chunk":1,"db":"db","id":7,"job":"put","name":"f","pieces":["<100001*7a>"]}],"order":[<30*0,>0]}~job 0 put ok 100001|open none|commands 0|/find "fs.files"/insert "fs.chunks"/insert "fs.chunks"/insert "fs.files""#;
