use super::{owned, written};
use mg_jobs::{ScriptError, json_text, parse_script, value_from_json};
use serde_json::Value;
use std::process::Abort;

// ---- values

/// Each line is a JSON value, the kind that it becomes, and what that prints as; or a value that is refused.
pub(super) const VALUES: &str = r#""a"~String~"a"
""~String~""
true~Boolean~true
false~Boolean~false
null~Null~null
0~Int32~0
-1~Int32~-1
2147483647~Int32~2147483647
2147483648~Int64~{"$int64":"2147483648"}
-2147483648~Int32~-2147483648
-2147483649~Int64~{"$int64":"-2147483649"}
9223372036854775807~Int64~{"$int64":"9223372036854775807"}
-9223372036854775808~Int64~{"$int64":"-9223372036854775808"}
9223372036854775808~refused
18446744073709551615~refused
-9223372036854775809~refused
1.0~refused
1e0~refused
-0~refused
0.5~refused
[]~Array~[]
[1,[null],"x"]~Array~[1,[null],"x"]
[1.0]~refused
{}~Document~{}
{"b":1,"a":2}~Document~{"a":2,"b":1}
{"a":1,"a":2}~Document~{"a":2}
{"a":1.5}~refused
{"":0}~Document~{"":0}
{"$oid":"000102030405060708090a0b"}~ObjectId~{"$oid":"000102030405060708090a0b"}
{"$oid":"000102030405060708090A0B"}~refused
{"$oid":"000102030405060708090a"}~refused
{"$oid":"000102030405060708090a0b0c"}~refused
{"$oid":"000102030405060708090a0g"}~refused
{"$oid":1}~refused
{"$oid":null}~refused
{"a":1,"$oid":"000102030405060708090a0b"}~Document~{"$oid":"000102030405060708090a0b","a":1}
{"$bytes":""}~Binary~{"$bytes":""}
{"$bytes":"00fF"}~Binary~{"$bytes":"00ff"}
{"$bytes":"0"}~refused
{"$bytes":"0g"}~refused
{"$bytes":[]}~refused
{"$date":0}~DateTime~{"$date":0}
{"$date":-9223372036854775808}~DateTime~{"$date":-9223372036854775808}
{"$date":9223372036854775808}~refused
{"$date":1.0}~refused
{"$date":"0"}~refused
{"$int64":"0"}~Int64~{"$int64":"0"}
{"$int64":"5"}~Int64~{"$int64":"5"}
{"$int64":"9223372036854775807"}~Int64~{"$int64":"9223372036854775807"}
{"$int64":"-9223372036854775808"}~Int64~{"$int64":"-9223372036854775808"}
{"$int64":"9223372036854775808"}~refused
{"$int64":"-9223372036854775809"}~refused
{"$int64":"+5"}~refused
{"$int64":"007"}~refused
{"$int64":"-0"}~refused
{"$int64":""}~refused
{"$int64":"-"}~refused
{"$int64":" 5"}~refused
{"$int64":"5.0"}~refused
{"$int64":5}~refused
{"$timestamp":{"i":4294967295,"t":0}}~Timestamp~{"$timestamp":{"i":4294967295,"t":0}}
{"$timestamp":{"t":2,"i":1}}~Timestamp~{"$timestamp":{"i":1,"t":2}}
{"$timestamp":{"i":4294967296,"t":0}}~refused
{"$timestamp":{"i":-1,"t":0}}~refused
{"$timestamp":{"i":1.0,"t":0}}~refused
{"$timestamp":{"i":1}}~refused
{"$timestamp":{"i":1,"t":0,"x":0}}~refused
{"$timestamp":[1,0]}~refused
{"$double":"000000000000f03f"}~Document~{"$double":"000000000000f03f"}
{"$codeScope":{"code":"f","scope":{}}}~Document~{"$codeScope":{"code":"f","scope":{}}}
{"$minKey":true}~Document~{"$minKey":true}
{"$binary":{"bytes":"00","subtype":5}}~Document~{"$binary":{"bytes":"00","subtype":5}}
{"$x":{"$date":5}}~Document~{"$x":{"$date":5}}
{"$":0}~Document~{"$":0}
{"oid":"x"}~Document~{"oid":"x"}
[{"$int64":"5"},{"$date":5}]~Array~[{"$int64":"5"},{"$date":5}]
[{"$oid":"x"}]~refused
{"a":{"b":[{"$int64":"x"}]}}~refused
{"a":{"$date":1},"b":18446744073709551615}~refused"#;

/// What a JSON text stands for: the kind and the printed value, parted by `~`, or `refused`.
pub(super) fn value(rt: &(impl Abort + AllocGlobal), json: &str) -> String {
    let Ok(json) = Value::from_slice(rt.alloc(), json.as_bytes()) else {
        return owned(rt, "not json");
    };
    let Some(value) = value_from_json(rt.alloc(), &json).expect(rt, "memory") else {
        return owned(rt, "refused");
    };
    let printed = json_text(rt.alloc(), &value).expect(rt, "memory");
    written(rt, format!(in rt.alloc(); "{:?}~{printed}", value.kind()))
}

// ---- scripts

/// Whole scripts, each with the place of its first fault behind it. The last four have many arrays, one in the other, or many
/// jobs: none is a job, which is found where the text is JSON and its list not too long, and three brackets stand around the arrays.
pub(super) const SCRIPTS: &str = r#"~not json
[~not json
nul~not json
{"jobs":[],"order":[]~not json
{"jobs":[],"order":[]}}~not json
{'jobs':[],'order':[]}~not json
{"jobs":[],"order":[1e400]}~not json
{"jobs":[],"order":[01]}~not json
{"jobs":["\ud800"],"order":[]}~not json
[]~top
null~top
0~top
"jobs"~top
{}~top
{"jobs":[]}~top
{"order":[]}~top
{"jobs":{},"order":[]}~top
{"jobs":null,"order":[]}~top
{"jobs":[],"order":0}~top
{"jobs":[],"order":[],"workers":[]}~top
{"jobs":[],"order":[],"trim":1}~top
{"Jobs":[],"jobs":[],"order":[]}~top
{"jobs":[],"order":[],"wire":-1}~top
{"jobs":[],"order":[],"wire":2147483648}~top
{"jobs":[],"order":[],"wire":21.0}~top
{"jobs":[],"order":[],"wire":null}~top
{"jobs":[],"order":[],"ids":"00000"}~top
{"jobs":[],"order":[],"ids":"00000A"}~top
{"jobs":[],"order":[],"ids":"00000000"}~top
{"jobs":[],"order":[],"ids":0}~top
{"jobs":[],"order":[],"moment":"0"}~top
{"jobs":[],"order":[],"moment":9223372036854775808}~top
{"jobs":[],"order":[],"moment":-0}~top
{"jobs":[],"order":[],"moment":null}~top
{"jobs":[],"order":[],"fates":{}}~top
{"jobs":[],"order":[],"fates":null}~top
{"jobs":[0],"order":[-1],"fates":[0],"wire":-1}~top
{"jobs":[0],"order":[-1],"fates":[0]}~job 0
{"jobs":[{"docs":[{}],"job":"insert","ns":"a.b"},{}],"order":[]}~job 1
{"jobs":[],"order":[-1],"fates":[0]}~order 0
{"jobs":[],"order":[4294967296]}~order 0
{"jobs":[],"order":[0.0]}~order 0
{"jobs":[],"order":["0"]}~order 0
{"jobs":[],"order":[null]}~order 0
{"jobs":[],"order":[0,4294967295,[0],-1]}~order 2
{"jobs":[],"order":[7],"fates":[{},{"pend":1.0}]}~fate 1
{"jobs":[{"db":"a","id":0,"job":"get","read":1}],"order":[7],"fates":[0]}~fate 0
{"jobs":[{"db":"a","id":0,"job":"get","read":1}],"order":[7]}~taken
{"jobs":[],"order":[]}~taken
{"jobs":[],"order":[4294967295,0]}~taken
{"jobs":0,"jobs":[],"order":0,"order":[]}~taken
{"jobs":[],"order":[],"fates":[],"ids":"09afbc","moment":-9223372036854775808,"wire":0}~taken
{"jobs":[],"order":[],"fates":[{},{"pend":0},{"kind":"keep"}],"wire":2147483647}~taken
{"jobs":[{"a":<124*[><124*]>}],"order":[]}~job 0
{"jobs":[{"a":<125*[><125*]>}],"order":[]}~not json
{"jobs":[<65535*0,>0],"order":[]}~job 0
{"jobs":[<65536*0,>0],"order":[]}~top"#;

/// The same of scripts with one job.
pub(super) const JOBS: &str = r#"{"jobs":[null],"order":[]}~job 0
{"jobs":[[]],"order":[]}~job 0
{"jobs":[{"docs":[{}],"ns":"a.b"}],"order":[]}~job 0
{"jobs":[{"docs":[{}],"job":1,"ns":"a.b"}],"order":[]}~job 0
{"jobs":[{"docs":[{}],"job":"Insert","ns":"a.b"}],"order":[]}~job 0
{"jobs":[{"docs":[{}],"job":"insert"}],"order":[]}~job 0
{"jobs":[{"job":"insert","ns":"a.b"}],"order":[]}~job 0
{"jobs":[{"docs":[],"job":"insert","ns":"a.b"}],"order":[]}~job 0
{"jobs":[{"docs":{},"job":"insert","ns":"a.b"}],"order":[]}~job 0
{"jobs":[{"docs":[{},1],"job":"insert","ns":"a.b"}],"order":[]}~job 0
{"jobs":[{"docs":[[]],"job":"insert","ns":"a.b"}],"order":[]}~job 0
{"jobs":[{"docs":[{"$date":1}],"job":"insert","ns":"a.b"}],"order":[]}~job 0
{"jobs":[{"docs":[{"$date":"x"}],"job":"insert","ns":"a.b"}],"order":[]}~job 0
{"jobs":[{"docs":[{"x":1.0}],"job":"insert","ns":"a.b"}],"order":[]}~job 0
{"jobs":[{"docs":[{}],"job":"insert","ns":"ab"}],"order":[]}~job 0
{"jobs":[{"docs":[{}],"job":"insert","ns":".b"}],"order":[]}~job 0
{"jobs":[{"docs":[{}],"job":"insert","ns":"a."}],"order":[]}~job 0
{"jobs":[{"docs":[{}],"job":"insert","ns":null}],"order":[]}~job 0
{"jobs":[{"batch":1,"docs":[{}],"job":"insert","ns":"a.b"}],"order":[]}~job 0
{"jobs":[{"docs":[{},{"$x":1}],"job":"insert","ns":"a.b.c"}],"order":[]}~taken
{"jobs":[{"calls":1,"job":"follow"}],"order":[]}~job 0
{"jobs":[{"calls":1,"job":"follow","on":1}],"order":[]}~job 0
{"jobs":[{"calls":1,"job":"follow","on":".b"}],"order":[]}~job 0
{"jobs":[{"calls":1,"job":"follow","on":"a."}],"order":[]}~job 0
{"jobs":[{"calls":1,"job":"follow","on":"."}],"order":[]}~job 0
{"jobs":[{"job":"follow","on":"a.b"}],"order":[]}~job 0
{"jobs":[{"calls":-1,"job":"follow","on":"a.b"}],"order":[]}~job 0
{"jobs":[{"calls":1.0,"job":"follow","on":"a.b"}],"order":[]}~job 0
{"jobs":[{"calls":1048577,"job":"follow","on":"a.b"}],"order":[]}~job 0
{"jobs":[{"calls":4294967296,"job":"follow","on":"a.b"}],"order":[]}~job 0
{"jobs":[{"batch":4294967296,"calls":1,"job":"follow","on":"a.b"}],"order":[]}~job 0
{"jobs":[{"batch":null,"calls":1,"job":"follow","on":"a.b"}],"order":[]}~job 0
{"jobs":[{"calls":1,"job":"follow","match":null,"on":"a.b"}],"order":[]}~job 0
{"jobs":[{"calls":1,"job":"follow","match":[],"on":"a.b"}],"order":[]}~job 0
{"jobs":[{"calls":1,"job":"follow","match":{"$int64":"1"},"on":"a.b"}],"order":[]}~job 0
{"jobs":[{"calls":1,"job":"follow","match":{"a":{"$bytes":"0"}},"on":"a.b"}],"order":[]}~job 0
{"jobs":[{"calls":1,"job":"follow","on":"a.b","start":null}],"order":[]}~job 0
{"jobs":[{"calls":1,"job":"follow","on":"a.b","start":{}}],"order":[]}~job 0
{"jobs":[{"calls":1,"job":"follow","on":"a.b","start":{"after":1}}],"order":[]}~job 0
{"jobs":[{"calls":1,"job":"follow","on":"a.b","start":{"resumeAfter":1,"startAfter":1}}],"order":[]}~job 0
{"jobs":[{"calls":1,"job":"follow","on":"a.b","start":{"resumeAfter":1.0}}],"order":[]}~job 0
{"jobs":[{"calls":1,"job":"follow","on":"a.b","start":{"startAt":1}}],"order":[]}~job 0
{"jobs":[{"calls":1,"job":"follow","on":"a.b","start":{"startAt":{"$timestamp":{"i":1}}}}],"order":[]}~job 0
{"jobs":[{"calls":1,"job":"follow","on":"a.b","split":true}],"order":[]}~job 0
{"jobs":[{"calls":1048576,"job":"follow","on":"a.b"}],"order":[]}~taken
{"jobs":[{"batch":4294967295,"calls":0,"job":"follow","match":{"a":{"$in":[1]}},"on":"a.b.c","start":{"resumeAfter":null}}],"order":[]}~taken
{"jobs":[{"calls":1,"job":"follow","on":"a"}],"order":[]}~taken
{"jobs":[{"calls":1,"job":"follow","on":""}],"order":[]}~taken
{"jobs":[{"calls":1,"job":"follow","on":"a.b","start":{"startAfter":{"_data":"0"}}}],"order":[]}~taken
{"jobs":[{"calls":1,"job":"follow","on":"a.b","start":{"startAt":{"$timestamp":{"i":1,"t":1}}}}],"order":[]}~taken
{"jobs":[{"chunk":4,"id":0,"job":"put","name":"f","pieces":[]}],"order":[]}~job 0
{"jobs":[{"chunk":4,"db":"","id":0,"job":"put","name":"f","pieces":[]}],"order":[]}~job 0
{"jobs":[{"chunk":4,"db":"a.b","id":0,"job":"put","name":"f","pieces":[]}],"order":[]}~job 0
{"jobs":[{"chunk":4,"db":".","id":0,"job":"put","name":"f","pieces":[]}],"order":[]}~job 0
{"jobs":[{"bucket":null,"chunk":4,"db":"a","id":0,"job":"put","name":"f","pieces":[]}],"order":[]}~job 0
{"jobs":[{"chunk":4,"db":"a","job":"put","name":"f","pieces":[]}],"order":[]}~job 0
{"jobs":[{"chunk":4,"db":"a","id":1.0,"job":"put","name":"f","pieces":[]}],"order":[]}~job 0
{"jobs":[{"chunk":4,"db":"a","id":0,"job":"put","pieces":[]}],"order":[]}~job 0
{"jobs":[{"db":"a","id":0,"job":"put","name":"f","pieces":[]}],"order":[]}~job 0
{"jobs":[{"chunk":4294967296,"db":"a","id":0,"job":"put","name":"f","pieces":[]}],"order":[]}~job 0
{"jobs":[{"chunk":4,"db":"a","id":0,"job":"put","name":"f"}],"order":[]}~job 0
{"jobs":[{"chunk":4,"db":"a","id":0,"job":"put","name":"f","pieces":"00"}],"order":[]}~job 0
{"jobs":[{"chunk":4,"db":"a","id":0,"job":"put","name":"f","pieces":["00","0"]}],"order":[]}~job 0
{"jobs":[{"chunk":4,"db":"a","id":0,"job":"put","name":"f","pieces":["0x"]}],"order":[]}~job 0
{"jobs":[{"chunk":4,"db":"a","id":0,"job":"put","name":"f","pieces":[0]}],"order":[]}~job 0
{"jobs":[{"chunk":4,"db":"a","id":0,"job":"put","name":"f","pieces":[],"read":1}],"order":[]}~job 0
{"jobs":[{"bucket":"","chunk":0,"db":"a","id":null,"job":"put","name":"","pieces":["","aAfF"]}],"order":[]}~taken
{"jobs":[{"db":"a","id":0,"job":"get"}],"order":[]}~job 0
{"jobs":[{"db":"a","id":0,"job":"get","read":-1}],"order":[]}~job 0
{"jobs":[{"db":"","id":0,"job":"get","read":1}],"order":[]}~job 0
{"jobs":[{"db":"a.","id":0,"job":"get","read":1}],"order":[]}~job 0
{"jobs":[{"db":".a","id":0,"job":"get","read":1}],"order":[]}~job 0
{"jobs":[{"db":"a","job":"get","read":1}],"order":[]}~job 0
{"jobs":[{"db":"a","id":{"$oid":"0"},"job":"get","read":1}],"order":[]}~job 0
{"jobs":[{"chunk":1,"db":"a","id":0,"job":"get","read":1}],"order":[]}~job 0
{"jobs":[{"bucket":"b.c","db":"a","id":{"$date":1},"job":"get","read":4294967295}],"order":[]}~taken"#;

/// The same of scripts with two fates.
pub(super) const FATES: &str = r#"{"fates":[{},0],"jobs":[],"order":[]}~fate 1
{"fates":[{},null],"jobs":[],"order":[]}~fate 1
{"fates":[{},{"x":0}],"jobs":[],"order":[]}~fate 1
{"fates":[{},{"pend":-1}],"jobs":[],"order":[]}~fate 1
{"fates":[{},{"pend":4294967296}],"jobs":[],"order":[]}~fate 1
{"fates":[{},{"pend":null}],"jobs":[],"order":[]}~fate 1
{"fates":[{},{"kind":"kept"}],"jobs":[],"order":[]}~fate 1
{"fates":[{},{"kind":null}],"jobs":[],"order":[]}~fate 1
{"fates":[{},{"kind":1}],"jobs":[],"order":[]}~fate 1
{"fates":[{},{"code":0}],"jobs":[],"order":[]}~fate 1
{"fates":[{},{"labels":[]}],"jobs":[],"order":[]}~fate 1
{"fates":[{},{"code":0,"kind":"keep"}],"jobs":[],"order":[]}~fate 1
{"fates":[{},{"code":1,"kind":"lose"}],"jobs":[],"order":[]}~fate 1
{"fates":[{},{"kind":"drop","labels":[]}],"jobs":[],"order":[]}~fate 1
{"fates":[{},{"code":2147483648,"kind":"refuse"}],"jobs":[],"order":[]}~fate 1
{"fates":[{},{"code":1.0,"kind":"refuse"}],"jobs":[],"order":[]}~fate 1
{"fates":[{},{"code":null,"kind":"refuse"}],"jobs":[],"order":[]}~fate 1
{"fates":[{},{"kind":"refuse","labels":null}],"jobs":[],"order":[]}~fate 1
{"fates":[{},{"kind":"refuse","labels":"a"}],"jobs":[],"order":[]}~fate 1
{"fates":[{},{"kind":"refuse","labels":["a",0]}],"jobs":[],"order":[]}~fate 1
{"fates":[{},{"kind":"keep","pend":0}],"jobs":[],"order":[]}~taken
{"fates":[{},{"pend":4294967295}],"jobs":[],"order":[]}~taken
{"fates":[{},{"kind":"lose"}],"jobs":[],"order":[]}~taken
{"fates":[{},{"kind":"drop","pend":0}],"jobs":[],"order":[]}~taken
{"fates":[{},{"kind":"refuse"}],"jobs":[],"order":[]}~taken
{"fates":[{},{"code":-2147483648,"kind":"refuse","labels":["a","a",""],"pend":1}],"jobs":[],"order":[]}~taken"#;

/// The place of the first fault of a script, or `taken` where it has none.
pub(super) fn place(rt: &(impl Abort + AllocGlobal), script: &str) -> String {
    match parse_script(rt.alloc(), script.as_bytes()) {
        Ok(_) => owned(rt, "taken"),
        Err(ScriptError::Fault(place)) => written(rt, format!(in rt.alloc(); "{place}")),
        Err(ScriptError::OutOfMemory) => owned(rt, "out of memory"),
    }
}
