//! A script for each class of what a run may answer, with one worker and with eight: a program that gives up at one of them, as for
//! want of memory, meets its contract and fails here. What is wanted was computed by another program.
//!
//! Each row is made by a function that promises nothing of it, since what a test knows of its texts makes its proof long.
use crate::pipelines;
use crate::runs::{Ended, run_words};
use agg_model::Bytes;
use std::alloc::Global;
use std::process::Abort;
use std::test::Fail;
use std::thread::Threads;
use test_gates::HeldBack;
use worker_gate::{Gate, OpenGate, Point};

/// A script, the words that it is run with, and how the run ends.
#[derive(Drop)]
pub(crate) struct Case {
    pub name: &'static str,
    pub words: &'static str,
    pub script: &'static str,
    pub output: &'static str,
    pub status: u8,
}

/// Settings lines that are accepted and refused, and too many buckets.
fn settings() -> Case {
    Case {
        name: "a settings line",
        words: "",
        script: r#"{"index":"i","mappings":{"properties":{"t":{"type":"keyword"}}},"settings":{"number_of_shards":1}}

{"index":{"_id":"a"}}
{"t":["x","y"]}

{"persistent":{"search.max_buckets":1}}
{}
{"aggs":{"t":{"terms":{"field":"t"}}}}
{"transient":{"search.max_buckets":null}}
{"transient":{"search.max_buckets":0}}
{}
{"aggs":{"t":{"terms":{"field":"t"}}}}
"#,
        output: r#"{"errors":false,"items":[{"index":{"_id":"a","_index":"i","result":"created","status":201}}],"took":0}
{"acknowledged":true}
{"error":{"count":2,"max_buckets":1,"reason":"too many buckets","type":"too_many_buckets_exception"},"status":400}
{"acknowledged":true}
{"error":{"key":"search.max_buckets","type":"settings_exception"},"status":400}
{"_shards":{"failed":0,"skipped":0,"successful":1,"total":1},"aggregations":{"t":{"buckets":[{"doc_count":1,"key":"x"},{"doc_count":1,"key":"y"}],"doc_count_error_upper_bound":0,"sum_other_doc_count":0}},"hits":{"hits":[],"max_score":null,"total":{"relation":"eq","value":1}},"status":200,"timed_out":false,"took":0}
{"breakers":{"fielddata":{"estimated_size_in_bytes":19,"granted_size_in_bytes":19,"limit_size_in_bytes":429496729,"overhead_percent":103,"tripped":0},"inflight_requests":{"estimated_size_in_bytes":0,"granted_size_in_bytes":76,"limit_size_in_bytes":1073741824,"overhead_percent":200,"tripped":0},"parent":{"estimated_size_in_bytes":19,"granted_size_in_bytes":5277,"limit_size_in_bytes":751619276,"overhead_percent":100,"tripped":0},"request":{"estimated_size_in_bytes":0,"granted_size_in_bytes":5182,"limit_size_in_bytes":644245094,"overhead_percent":100,"tripped":0}}}
"#,
        status: 0,
    }
}

/// A settings line whose limit the columns are beyond.
fn limit_below_columns() -> Case {
    Case {
        name: "a limit below the columns",
        words: "",
        script: r#"{"index":"i","mappings":{"properties":{"t":{"type":"keyword"}}},"settings":{"number_of_shards":1}}

{"index":{}}
{"t":"a"}

{"persistent":{"indices.breaker.fielddata.limit":"9b"}}
{}
{}
"#,
        output: r#"{"errors":false,"items":[{"index":{"_id":"_auto_0","_index":"i","result":"created","status":201}}],"took":0}
{"error":{"bytes_limit":9,"bytes_wanted":10,"durability":"PERMANENT","reason":"[fielddata] Data too large, data for [columns] would be [10b], which is larger than the limit of [9b]","type":"circuit_breaking_exception"},"status":429}
{"_shards":{"failed":0,"skipped":0,"successful":1,"total":1},"hits":{"hits":[],"max_score":null,"total":{"relation":"eq","value":1}},"status":200,"timed_out":false,"took":0}
{"breakers":{"fielddata":{"estimated_size_in_bytes":10,"granted_size_in_bytes":10,"limit_size_in_bytes":429496729,"overhead_percent":103,"tripped":0},"inflight_requests":{"estimated_size_in_bytes":0,"granted_size_in_bytes":4,"limit_size_in_bytes":1073741824,"overhead_percent":200,"tripped":0},"parent":{"estimated_size_in_bytes":10,"granted_size_in_bytes":4283,"limit_size_in_bytes":751619276,"overhead_percent":100,"tripped":0},"request":{"estimated_size_in_bytes":0,"granted_size_in_bytes":4269,"limit_size_in_bytes":644245094,"overhead_percent":100,"tripped":0}}}
"#,
        status: 0,
    }
}

/// A search that is refused for its memory, and the same where a settings line gives it more.
fn refused_search() -> Case {
    Case {
        name: "a search that a breaker refuses, and the same above its limit",
        words: "-E indices.breaker.request.limit=4700b",
        script: r#"{"index":"i","mappings":{"properties":{"t":{"type":"keyword"}}},"settings":{"number_of_shards":1}}

{"index":{}}
{"t":"a"}

{}
{"aggs":{"t":{"terms":{"field":"t"}}}}
{"persistent":{"indices.breaker.request.limit":"1mb"}}
{}
{"aggs":{"t":{"terms":{"field":"t"}}}}
"#,
        output: r#"{"errors":false,"items":[{"index":{"_id":"_auto_0","_index":"i","result":"created","status":201}}],"took":0}
{"error":{"bytes_limit":4700,"bytes_wanted":4737,"durability":"TRANSIENT","reason":"[request] Data too large, data for [search] would be [4737b], which is larger than the limit of [4700b]","type":"circuit_breaking_exception"},"status":429}
{"acknowledged":true}
{"_shards":{"failed":0,"skipped":0,"successful":1,"total":1},"aggregations":{"t":{"buckets":[{"doc_count":1,"key":"a"}],"doc_count_error_upper_bound":0,"sum_other_doc_count":0}},"hits":{"hits":[],"max_score":null,"total":{"relation":"eq","value":1}},"status":200,"timed_out":false,"took":0}
{"breakers":{"fielddata":{"estimated_size_in_bytes":10,"granted_size_in_bytes":10,"limit_size_in_bytes":429496729,"overhead_percent":103,"tripped":0},"inflight_requests":{"estimated_size_in_bytes":0,"granted_size_in_bytes":76,"limit_size_in_bytes":1073741824,"overhead_percent":200,"tripped":0},"parent":{"estimated_size_in_bytes":10,"granted_size_in_bytes":5113,"limit_size_in_bytes":751619276,"overhead_percent":100,"tripped":0},"request":{"estimated_size_in_bytes":0,"granted_size_in_bytes":5027,"limit_size_in_bytes":1048576,"overhead_percent":100,"tripped":0}}}
"#,
        status: 0,
    }
}

/// A body that is refused for its memory, and one that is not.
fn body_too_large() -> Case {
    Case {
        name: "a body that a breaker refuses",
        words: "-E network.breaker.inflight_requests.limit=75b",
        script: r#"{"index":"i","mappings":{"properties":{"t":{"type":"keyword"}}},"settings":{"number_of_shards":2}}

{"index":{}}
{"t":"a"}

{}
{"aggs":{"t":{"terms":{"field":"t"}}}}
{}
{}
"#,
        output: r#"{"errors":false,"items":[{"index":{"_id":"_auto_0","_index":"i","result":"created","status":201}}],"took":0}
{"error":{"bytes_limit":75,"bytes_wanted":76,"durability":"TRANSIENT","reason":"[inflight_requests] Data too large, data for [search] would be [76b], which is larger than the limit of [75b]","type":"circuit_breaking_exception"},"status":429}
{"_shards":{"failed":0,"skipped":0,"successful":2,"total":2},"hits":{"hits":[],"max_score":null,"total":{"relation":"eq","value":1}},"status":200,"timed_out":false,"took":0}
{"breakers":{"fielddata":{"estimated_size_in_bytes":10,"granted_size_in_bytes":10,"limit_size_in_bytes":429496729,"overhead_percent":103,"tripped":0},"inflight_requests":{"estimated_size_in_bytes":0,"granted_size_in_bytes":4,"limit_size_in_bytes":75,"overhead_percent":200,"tripped":1},"parent":{"estimated_size_in_bytes":10,"granted_size_in_bytes":8379,"limit_size_in_bytes":751619276,"overhead_percent":100,"tripped":0},"request":{"estimated_size_in_bytes":0,"granted_size_in_bytes":8365,"limit_size_in_bytes":644245094,"overhead_percent":100,"tripped":0}}}
"#,
        status: 0,
    }
}

/// Partial results where the one shard is refused.
fn partial_of_no_shard() -> Case {
    Case {
        name: "partial results of no shard",
        words: "-E indices.breaker.request.limit=4607b",
        script: r#"{"index":"i","mappings":{"properties":{"t":{"type":"keyword"}}},"settings":{"number_of_shards":1}}

{"index":{}}
{"t":"a"}

{}
{"aggs":{"t":{"terms":{"field":"t"}}},"allow_partial_search_results":true}
"#,
        output: r#"{"errors":false,"items":[{"index":{"_id":"_auto_0","_index":"i","result":"created","status":201}}],"took":0}
{"error":{"bytes_limit":4607,"bytes_wanted":4608,"durability":"TRANSIENT","failures":[{"reason":{"bytes_limit":4607,"bytes_wanted":4608,"durability":"TRANSIENT","reason":"[request] Data too large, data for [search] would be [4608b], which is larger than the limit of [4607b]","type":"circuit_breaking_exception"},"shard":0}],"reason":"[request] Data too large, data for [search] would be [4608b], which is larger than the limit of [4607b]","type":"circuit_breaking_exception"},"status":429}
{"breakers":{"fielddata":{"estimated_size_in_bytes":10,"granted_size_in_bytes":10,"limit_size_in_bytes":429496729,"overhead_percent":103,"tripped":0},"inflight_requests":{"estimated_size_in_bytes":0,"granted_size_in_bytes":148,"limit_size_in_bytes":1073741824,"overhead_percent":200,"tripped":0},"parent":{"estimated_size_in_bytes":10,"granted_size_in_bytes":158,"limit_size_in_bytes":751619276,"overhead_percent":100,"tripped":0},"request":{"estimated_size_in_bytes":0,"granted_size_in_bytes":0,"limit_size_in_bytes":4607,"overhead_percent":100,"tripped":1}}}
"#,
        status: 0,
    }
}

/// Columns beyond a limit.
fn columns_too_large() -> Case {
    Case {
        name: "columns that a breaker refuses",
        words: "-E indices.breaker.fielddata.limit=9b",
        script: r#"{"index":"i","mappings":{"properties":{"t":{"type":"keyword"}}},"settings":{"number_of_shards":1}}

{"index":{}}
{"t":"a"}

{}
{}
"#,
        output: r#"{"error":{"bytes_limit":9,"bytes_wanted":10,"durability":"PERMANENT","reason":"[fielddata] Data too large, data for [columns] would be [10b], which is larger than the limit of [9b]","type":"circuit_breaking_exception"},"status":6}
"#,
        status: 6,
    }
}

/// Two pages of a composite, and one without buckets.
fn scan() -> Case {
    Case {
        name: "a scan",
        words: "--scan",
        script: r#"{"index":"i","mappings":{"properties":{"t":{"type":"keyword"},"n":{"type":"long"}}},"settings":{"number_of_shards":2}}

{"index":{"routing":"1"}}
{"t":"a","n":1}
{"index":{"routing":"0"}}
{"t":["a","b"],"n":2}
{"index":{"routing":"0"}}
{"t":"c","n":3}

{}
{"aggs":{"t":{"composite":{"size":2,"sources":[{"t":{"terms":{"field":"t"}}}]},"aggs":{"n":{"max":{"field":"n"}}}}}}
"#,
        output: r#"{"errors":false,"items":[{"index":{"_id":"_auto_0","_index":"i","result":"created","status":201}},{"index":{"_id":"_auto_1","_index":"i","result":"created","status":201}},{"index":{"_id":"_auto_2","_index":"i","result":"created","status":201}}],"took":0}
{"_shards":{"failed":0,"skipped":0,"successful":2,"total":2},"aggregations":{"t":{"after_key":{"t":"b"},"buckets":[{"doc_count":2,"key":{"t":"a"},"n":{"value":2}},{"doc_count":1,"key":{"t":"b"},"n":{"value":2}}]}},"hits":{"hits":[],"max_score":null,"total":{"relation":"eq","value":3}},"status":200,"timed_out":false,"took":0}
{"_shards":{"failed":0,"skipped":0,"successful":2,"total":2},"aggregations":{"t":{"after_key":{"t":"c"},"buckets":[{"doc_count":1,"key":{"t":"c"},"n":{"value":3}}]}},"hits":{"hits":[],"max_score":null,"total":{"relation":"eq","value":3}},"status":200,"timed_out":false,"took":0}
{"_shards":{"failed":0,"skipped":0,"successful":2,"total":2},"aggregations":{"t":{"buckets":[]}},"hits":{"hits":[],"max_score":null,"total":{"relation":"eq","value":3}},"status":200,"timed_out":false,"took":0}
{"breakers":{"fielddata":{"estimated_size_in_bytes":62,"granted_size_in_bytes":62,"limit_size_in_bytes":429496729,"overhead_percent":103,"tripped":0},"inflight_requests":{"estimated_size_in_bytes":0,"granted_size_in_bytes":696,"limit_size_in_bytes":1073741824,"overhead_percent":200,"tripped":0},"parent":{"estimated_size_in_bytes":62,"granted_size_in_bytes":37419,"limit_size_in_bytes":751619276,"overhead_percent":100,"tripped":0},"request":{"estimated_size_in_bytes":0,"granted_size_in_bytes":36661,"limit_size_in_bytes":644245094,"overhead_percent":100,"tripped":0}}}
"#,
        status: 0,
    }
}

/// A generated script.
fn generated() -> Case {
    Case {
        name: "a generated script",
        words: "--generate 7:2:2",
        script: "",
        output: r#"{"errors":false,"items":2,"took":0}
{"_shards":{"failed":0,"skipped":0,"successful":2,"total":2},"aggregations":{"items":{"doc_count":2,"skus":{"buckets":[{"doc_count":1,"key":"s19"},{"doc_count":1,"key":"s4"}],"doc_count_error_upper_bound":0,"sum_other_doc_count":0}},"tags":{"buckets":[{"doc_count":1,"key":"t23","total":{"value":5545}},{"doc_count":1,"key":"t28","total":{"value":3231}}],"doc_count_error_upper_bound":0,"sum_other_doc_count":0}},"hits":{"hits":[],"max_score":null,"total":{"relation":"eq","value":2}},"status":200,"timed_out":false,"took":0}
{"breakers":{"fielddata":{"estimated_size_in_bytes":78,"granted_size_in_bytes":78,"limit_size_in_bytes":429496729,"overhead_percent":103,"tripped":0},"inflight_requests":{"estimated_size_in_bytes":0,"granted_size_in_bytes":394,"limit_size_in_bytes":1073741824,"overhead_percent":200,"tripped":0},"parent":{"estimated_size_in_bytes":78,"granted_size_in_bytes":18939,"limit_size_in_bytes":751619276,"overhead_percent":100,"tripped":0},"request":{"estimated_size_in_bytes":0,"granted_size_in_bytes":18467,"limit_size_in_bytes":644245094,"overhead_percent":100,"tripped":0}}}
"#,
        status: 0,
    }
}

/// Three searches at a time, and two behind a settings line.
fn waves() -> Case {
    Case {
        name: "a wave",
        words: "--concurrent-searches 3",
        script: r#"{"index":"i","mappings":{"properties":{"t":{"type":"keyword"}}},"settings":{"number_of_shards":2}}

{"index":{"_id":"a"}}
{"t":"x"}
{"index":{"_id":"b"}}
{"t":"y"}

{}
{"aggs":{"t":{"terms":{"field":"t"}}}}
{}
{"x":1}
{}
{"query":{"term":{"t":"x"}}}
{"persistent":{"search.max_buckets":1}}
{}
{"aggs":{"t":{"terms":{"field":"t"}}}}
{}
{"aggs":{"t":{"terms":{"field":"t"}}}}
"#,
        output: r#"{"errors":false,"items":[{"index":{"_id":"a","_index":"i","result":"created","status":201}},{"index":{"_id":"b","_index":"i","result":"created","status":201}}],"took":0}
{"_shards":{"failed":0,"skipped":0,"successful":2,"total":2},"aggregations":{"t":{"buckets":[{"doc_count":1,"key":"x"},{"doc_count":1,"key":"y"}],"doc_count_error_upper_bound":0,"sum_other_doc_count":0}},"hits":{"hits":[],"max_score":null,"total":{"relation":"eq","value":2}},"status":200,"timed_out":false,"took":0}
{"error":{"code":101,"path":"/x","reason":"bad request","type":"parsing_exception"},"status":400}
{"_shards":{"failed":0,"skipped":0,"successful":2,"total":2},"hits":{"hits":[],"max_score":null,"total":{"relation":"eq","value":1}},"status":200,"timed_out":false,"took":0}
{"acknowledged":true}
{"error":{"count":2,"max_buckets":1,"reason":"too many buckets","type":"too_many_buckets_exception"},"status":400}
{"error":{"count":2,"max_buckets":1,"reason":"too many buckets","type":"too_many_buckets_exception"},"status":400}
{"breakers":{"fielddata":{"estimated_size_in_bytes":19,"granted_size_in_bytes":19,"limit_size_in_bytes":429496729,"overhead_percent":103,"tripped":0},"inflight_requests":{"estimated_size_in_bytes":0,"granted_size_in_bytes":152,"limit_size_in_bytes":1073741824,"overhead_percent":200,"tripped":0},"parent":{"estimated_size_in_bytes":19,"granted_size_in_bytes":21683,"limit_size_in_bytes":751619276,"overhead_percent":100,"tripped":0},"request":{"estimated_size_in_bytes":0,"granted_size_in_bytes":21512,"limit_size_in_bytes":644245094,"overhead_percent":100,"tripped":0}}}
"#,
        status: 0,
    }
}

/// Bodies that are refused, in front of one that is not.
fn refused_bodies() -> Case {
    Case {
        name: "a refused body",
        words: "",
        script: r#"{"index":"i","mappings":{"properties":{"t":{"type":"keyword"}}},"settings":{"number_of_shards":2}}

{"index":{}}
{"t":"a"}

{}
{"aggs":
{}
{"aggs":{"t":{"sum":{"field":"t"}}}}
{}
{"aggs":{"t":{"terms":{"field":"t"}}}}
"#,
        output: r#"{"errors":false,"items":[{"index":{"_id":"_auto_0","_index":"i","result":"created","status":201}}],"took":0}
{"error":{"reason":"the body is not JSON","type":"parsing_exception"},"status":400}
{"error":{"code":108,"path":"/aggs/t/sum/field","reason":"bad request","type":"parsing_exception"},"status":400}
{"_shards":{"failed":0,"skipped":0,"successful":2,"total":2},"aggregations":{"t":{"buckets":[{"doc_count":1,"key":"a"}],"doc_count_error_upper_bound":0,"sum_other_doc_count":0}},"hits":{"hits":[],"max_score":null,"total":{"relation":"eq","value":1}},"status":200,"timed_out":false,"took":0}
{"breakers":{"fielddata":{"estimated_size_in_bytes":10,"granted_size_in_bytes":10,"limit_size_in_bytes":429496729,"overhead_percent":103,"tripped":0},"inflight_requests":{"estimated_size_in_bytes":0,"granted_size_in_bytes":164,"limit_size_in_bytes":1073741824,"overhead_percent":200,"tripped":0},"parent":{"estimated_size_in_bytes":10,"granted_size_in_bytes":10962,"limit_size_in_bytes":751619276,"overhead_percent":100,"tripped":0},"request":{"estimated_size_in_bytes":0,"granted_size_in_bytes":10788,"limit_size_in_bytes":644245094,"overhead_percent":100,"tripped":0}}}
"#,
        status: 0,
    }
}

/// Each end of a bulk action.
fn refused_documents() -> Case {
    Case {
        name: "refused documents",
        words: "",
        script: r#"{"index":"i","mappings":{"properties":{"n":{"type":"byte"},"d":{"type":"date"}}},"settings":{"number_of_shards":2}}

{"create":{"_id":"a"}}
{"n":1}
{"create":{"_id":"a"}}
{"n":2}
{"index":{"_id":"b"}}
{"n":"x"}
{"index":{"_id":"c"}}
{"n":128}
{"index":{"_id":"d"}}
{"d":"2023-02-29"}
{"index":{"_id":"e"}}
[]
{"delete":{"_id":"f"}}
{"index":{"_id":"a"}}
{"n":3}
{"index":{"_id":"g"}}
{"n":4}
{"delete":{"_id":"g"}}

{}
{"aggs":{"n":{"sum":{"field":"n"}}}}
"#,
        output: r#"{"errors":true,"items":[{"create":{"_id":"a","_index":"i","result":"created","status":201}},{"create":{"_id":"a","_index":"i","error":{"number":26,"type":"version_conflict_engine_exception"},"status":409}},{"index":{"_id":"b","_index":"i","error":{"number":21,"path":"n","type":"mapper_parsing_exception"},"status":400}},{"index":{"_id":"c","_index":"i","error":{"number":22,"path":"n","type":"mapper_parsing_exception"},"status":400}},{"index":{"_id":"d","_index":"i","error":{"number":21,"path":"d","type":"mapper_parsing_exception"},"status":400}},{"index":{"_id":"e","_index":"i","error":{"number":20,"path":"","type":"mapper_parsing_exception"},"status":400}},{"delete":{"_id":"f","_index":"i","result":"not_found","status":404}},{"index":{"_id":"a","_index":"i","result":"updated","status":200}},{"index":{"_id":"g","_index":"i","result":"created","status":201}},{"delete":{"_id":"g","_index":"i","result":"deleted","status":200}}],"took":0}
{"_shards":{"failed":0,"skipped":0,"successful":2,"total":2},"aggregations":{"n":{"value":3}},"hits":{"hits":[],"max_score":null,"total":{"relation":"eq","value":1}},"status":200,"timed_out":false,"took":0}
{"breakers":{"fielddata":{"estimated_size_in_bytes":9,"granted_size_in_bytes":9,"limit_size_in_bytes":429496729,"overhead_percent":103,"tripped":0},"inflight_requests":{"estimated_size_in_bytes":0,"granted_size_in_bytes":72,"limit_size_in_bytes":1073741824,"overhead_percent":200,"tripped":0},"parent":{"estimated_size_in_bytes":9,"granted_size_in_bytes":10527,"limit_size_in_bytes":751619276,"overhead_percent":100,"tripped":0},"request":{"estimated_size_in_bytes":0,"granted_size_in_bytes":10446,"limit_size_in_bytes":644245094,"overhead_percent":100,"tripped":0}}}
"#,
        status: 0,
    }
}

/// A script that is refused behind an answer.
fn refused_script() -> Case {
    Case {
        name: "a refused script",
        words: "",
        script: r#"{"index":"i","mappings":{"properties":{"t":{"type":"keyword"}}},"settings":{"number_of_shards":2}}

{"index":{}}
{"t":"a"}

{}
{"aggs":{"t":{"terms":{"field":"t"}}}}
[]
{}
"#,
        output: r#"{"errors":false,"items":[{"index":{"_id":"_auto_0","_index":"i","result":"created","status":201}}],"took":0}
{"_shards":{"failed":0,"skipped":0,"successful":2,"total":2},"aggregations":{"t":{"buckets":[{"doc_count":1,"key":"a"}],"doc_count_error_upper_bound":0,"sum_other_doc_count":0}},"hits":{"hits":[],"max_score":null,"total":{"relation":"eq","value":1}},"status":200,"timed_out":false,"took":0}
{"error":{"line":8,"number":39,"type":"bad_header"},"status":5}
"#,
        status: 5,
    }
}

/// A script whose first line is refused.
fn refused_index_line() -> Case {
    Case {
        name: "a refused index line",
        words: "",
        script: r#"{"index":"i","mappings":{"properties":{"t":{"type":"text"}}},"settings":{"number_of_shards":1}}

"#,
        output: r#"{"error":{"line":1,"number":31,"path":"/mappings/properties/t/type","type":"bad_index_line"},"status":5}
"#,
        status: 5,
    }
}

/// Words outside the grammar.
fn refused_words() -> Case {
    Case {
        name: "refused words",
        words: "--batched-reduce-size 1",
        script: "",
        output: r#"{"error":{"key":"--batched-reduce-size","type":"usage","value":"1"},"status":2}
"#,
        status: 2,
    }
}

/// Dates in documents, aggregations and queries.
fn dates() -> Case {
    Case {
        name: "dates",
        words: "",
        script: r#"{"index":"i","mappings":{"properties":{"d":{"type":"date"},"t":{"type":"keyword"}}},"settings":{"number_of_shards":2}}

{"index":{"routing":"1"}}
{"d":"2024-02-29T23:59:59.999Z","t":"a"}
{"index":{"routing":"0"}}
{"d":["2024-03-01",1709251200000],"t":"b"}
{"index":{"routing":"0"}}
{"t":"c"}

{}
{"aggs":{"d":{"terms":{"field":"d"},"aggs":{"first":{"min":{"field":"d"}}}}}}
{}
{"query":{"range":{"d":{"gte":"2024-03-01","lt":"2024-03-02T00:00:00Z"}}},"aggs":{"t":{"terms":{"field":"t"}},"d":{"max":{"field":"d"}}}}
{}
{"query":{"term":{"d":"2024-02-29T23:59:59.999Z"}},"aggs":{"d":{"terms":{"field":"d","missing":"2024-01-01"}}}}
{}
{"aggs":{"d":{"composite":{"after":{"d":"2024-02-29T23:59:59.999Z"},"sources":[{"d":{"terms":{"field":"d"}}}]}},"without":{"missing":{"field":"d"}}}}
{}
{"query":{"term":{"d":"2023-02-29"}}}
{}
{"query":{"range":{"d":{"gt":1709251199999}}},"aggs":{"d":{"avg":{"field":"d"}}}}
"#,
        output: r#"{"errors":false,"items":[{"index":{"_id":"_auto_0","_index":"i","result":"created","status":201}},{"index":{"_id":"_auto_1","_index":"i","result":"created","status":201}},{"index":{"_id":"_auto_2","_index":"i","result":"created","status":201}}],"took":0}
{"_shards":{"failed":0,"skipped":0,"successful":2,"total":2},"aggregations":{"d":{"buckets":[{"doc_count":1,"first":{"value":1709251199999},"key":1709251199999,"key_as_string":"2024-02-29T23:59:59.999Z"},{"doc_count":1,"first":{"value":1709251200000},"key":1709251200000,"key_as_string":"2024-03-01T00:00:00.000Z"}],"doc_count_error_upper_bound":0,"sum_other_doc_count":0}},"hits":{"hits":[],"max_score":null,"total":{"relation":"eq","value":3}},"status":200,"timed_out":false,"took":0}
{"_shards":{"failed":0,"skipped":0,"successful":2,"total":2},"aggregations":{"d":{"value":1709251200000},"t":{"buckets":[{"doc_count":1,"key":"b"}],"doc_count_error_upper_bound":0,"sum_other_doc_count":0}},"hits":{"hits":[],"max_score":null,"total":{"relation":"eq","value":1}},"status":200,"timed_out":false,"took":0}
{"_shards":{"failed":0,"skipped":0,"successful":2,"total":2},"aggregations":{"d":{"buckets":[{"doc_count":1,"key":1709251199999,"key_as_string":"2024-02-29T23:59:59.999Z"}],"doc_count_error_upper_bound":0,"sum_other_doc_count":0}},"hits":{"hits":[],"max_score":null,"total":{"relation":"eq","value":1}},"status":200,"timed_out":false,"took":0}
{"_shards":{"failed":0,"skipped":0,"successful":2,"total":2},"aggregations":{"d":{"after_key":{"d":1709251200000},"buckets":[{"doc_count":1,"key":{"d":1709251200000}}]},"without":{"doc_count":1}},"hits":{"hits":[],"max_score":null,"total":{"relation":"eq","value":3}},"status":200,"timed_out":false,"took":0}
{"error":{"code":104,"path":"/query/term/d","reason":"bad request","type":"parsing_exception"},"status":400}
{"error":{"code":108,"path":"/aggs/d/avg/field","reason":"bad request","type":"parsing_exception"},"status":400}
{"breakers":{"fielddata":{"estimated_size_in_bytes":53,"granted_size_in_bytes":53,"limit_size_in_bytes":429496729,"overhead_percent":103,"tripped":0},"inflight_requests":{"estimated_size_in_bytes":0,"granted_size_in_bytes":1184,"limit_size_in_bytes":1073741824,"overhead_percent":200,"tripped":0},"parent":{"estimated_size_in_bytes":53,"granted_size_in_bytes":51654,"limit_size_in_bytes":751619276,"overhead_percent":100,"tripped":0},"request":{"estimated_size_in_bytes":0,"granted_size_in_bytes":50417,"limit_size_in_bytes":644245094,"overhead_percent":100,"tripped":0}}}
"#,
        status: 0,
    }
}

/// Date histograms: the calendar, zones, gaps, bounds, names, one below terms, and two that are refused.
fn date_histograms() -> Case {
    Case {
        name: "date histograms",
        words: "",
        script: r#"{"index":"i","mappings":{"properties":{"d":{"type":"date"},"n":{"type":"long"},"t":{"type":"keyword"}}},"settings":{"number_of_shards":2}}

{"index":{"routing":"1"}}
{"d":"2024-01-31T23:30:00Z","t":"a","n":1}
{"index":{"routing":"0"}}
{"d":["2024-03-01",1709251200000],"t":"b","n":2}
{"index":{"routing":"0"}}
{"d":-1,"t":"a"}

{}
{"query":{"range":{"d":{"gte":"2024"}}},"aggs":{"d":{"date_histogram":{"field":"d","calendar_interval":"month"},"aggs":{"n":{"sum":{"field":"n"}}}}}}
{}
{"query":{"range":{"d":{"gte":"2024"}}},"aggs":{"d":{"date_histogram":{"field":"d","calendar_interval":"1M","time_zone":"+01:00","keyed":true}}}}
{}
{"aggs":{"t":{"terms":{"field":"t"},"aggs":{"d":{"date_histogram":{"field":"d","fixed_interval":"12h","time_zone":"-05:30","min_doc_count":1,"missing":"2024"}}}},"q":{"date_histogram":{"field":"d","calendar_interval":"quarter","hard_bounds":{"min":"2024"},"extended_bounds":{"min":"2024","max":"2024-07-01"}}}}}
{}
{"query":{"ids":{"values":[]}},"aggs":{"w":{"date_histogram":{"field":"d","calendar_interval":"week","extended_bounds":{"min":"2024-02-29","max":"2024-03-04"}}}}}
{}
{"aggs":{"d":{"date_histogram":{"field":"d","calendar_interval":"day","time_zone":"Europe/Berlin"}}}}
{}
{"aggs":{"d":{"date_histogram":{"field":"d","calendar_interval":"hour"}}}}
"#,
        output: r#"{"errors":false,"items":[{"index":{"_id":"_auto_0","_index":"i","result":"created","status":201}},{"index":{"_id":"_auto_1","_index":"i","result":"created","status":201}},{"index":{"_id":"_auto_2","_index":"i","result":"created","status":201}}],"took":0}
{"_shards":{"failed":0,"skipped":0,"successful":2,"total":2},"aggregations":{"d":{"buckets":[{"doc_count":1,"key":1704067200000,"key_as_string":"2024-01-01T00:00:00.000Z","n":{"value":1}},{"doc_count":0,"key":1706745600000,"key_as_string":"2024-02-01T00:00:00.000Z","n":{"value":0}},{"doc_count":1,"key":1709251200000,"key_as_string":"2024-03-01T00:00:00.000Z","n":{"value":2}}]}},"hits":{"hits":[],"max_score":null,"total":{"relation":"eq","value":2}},"status":200,"timed_out":false,"took":0}
{"_shards":{"failed":0,"skipped":0,"successful":2,"total":2},"aggregations":{"d":{"buckets":{"2024-02-01T00:00:00.000+01:00":{"doc_count":1,"key":1706742000000,"key_as_string":"2024-02-01T00:00:00.000+01:00"},"2024-03-01T00:00:00.000+01:00":{"doc_count":1,"key":1709247600000,"key_as_string":"2024-03-01T00:00:00.000+01:00"}}}},"hits":{"hits":[],"max_score":null,"total":{"relation":"eq","value":2}},"status":200,"timed_out":false,"took":0}
{"_shards":{"failed":0,"skipped":0,"successful":2,"total":2},"aggregations":{"q":{"buckets":[{"doc_count":2,"key":1704067200000,"key_as_string":"2024-01-01T00:00:00.000Z"},{"doc_count":0,"key":1711929600000,"key_as_string":"2024-04-01T00:00:00.000Z"},{"doc_count":0,"key":1719792000000,"key_as_string":"2024-07-01T00:00:00.000Z"}]},"t":{"buckets":[{"d":{"buckets":[{"doc_count":1,"key":-23400000,"key_as_string":"1969-12-31T12:00:00.000-05:30"},{"doc_count":1,"key":1706722200000,"key_as_string":"2024-01-31T12:00:00.000-05:30"}]},"doc_count":2,"key":"a"},{"d":{"buckets":[{"doc_count":1,"key":1709227800000,"key_as_string":"2024-02-29T12:00:00.000-05:30"}]},"doc_count":1,"key":"b"}],"doc_count_error_upper_bound":0,"sum_other_doc_count":0}},"hits":{"hits":[],"max_score":null,"total":{"relation":"eq","value":3}},"status":200,"timed_out":false,"took":0}
{"_shards":{"failed":0,"skipped":0,"successful":2,"total":2},"aggregations":{"w":{"buckets":[{"doc_count":0,"key":1708905600000,"key_as_string":"2024-02-26T00:00:00.000Z"},{"doc_count":0,"key":1709510400000,"key_as_string":"2024-03-04T00:00:00.000Z"}]}},"hits":{"hits":[],"max_score":null,"total":{"relation":"eq","value":0}},"status":200,"timed_out":false,"took":0}
{"error":{"code":104,"path":"/aggs/d/date_histogram/time_zone","reason":"bad request","type":"parsing_exception"},"status":400}
{"error":{"count":474794,"max_buckets":65536,"reason":"too many buckets","type":"too_many_buckets_exception"},"status":400}
{"breakers":{"fielddata":{"estimated_size_in_bytes":78,"granted_size_in_bytes":78,"limit_size_in_bytes":429496729,"overhead_percent":103,"tripped":0},"inflight_requests":{"estimated_size_in_bytes":0,"granted_size_in_bytes":1884,"limit_size_in_bytes":1073741824,"overhead_percent":200,"tripped":0},"parent":{"estimated_size_in_bytes":78,"granted_size_in_bytes":66522,"limit_size_in_bytes":751619276,"overhead_percent":100,"tripped":0},"request":{"estimated_size_in_bytes":0,"granted_size_in_bytes":64560,"limit_size_in_bytes":644245094,"overhead_percent":100,"tripped":0}}}
"#,
        status: 0,
    }
}

/// Each kind of aggregation.
fn aggregations() -> Case {
    Case {
        name: "kinds of aggregations",
        words: "",
        script: r#"{"index":"i","mappings":{"properties":{"n":{"type":"long"},"t":{"type":"keyword"},"b":{"type":"boolean"},"o":{"type":"nested","properties":{"q":{"type":"long"}}}}},"settings":{"number_of_shards":2}}

{"index":{"_id":"a"}}
{"n":1,"t":"x","b":true,"o":[{"q":1},{"q":2}]}
{"index":{"_id":"b"}}
{"n":25,"t":["x","y"],"o":{"q":2}}
{"index":{"_id":"c"}}
{"n":-3}

{}
{"aggs":{"h":{"histogram":{"field":"n","interval":10,"offset":2,"min_doc_count":0},"aggs":{"s":{"sum":{"field":"n"}}}},"t":{"terms":{"field":"t","missing":"z","order":{"m":"desc"},"exclude":["y"],"show_term_doc_count_error":true},"aggs":{"m":{"max":{"field":"n"}}}},"m":{"missing":{"field":"b"}}}}
{}
{"query":{"term":{"t":"x"}},"aggs":{"g":{"global":{},"aggs":{"a":{"avg":{"field":"n"}},"c":{"value_count":{"field":"t"}}}},"f":{"filters":{"filters":{"b":{"term":{"b":true}}},"other_bucket_key":"rest"}},"o":{"filter":{"exists":{"field":"b"}},"aggs":{"n":{"min":{"field":"n"}}}}}}
{}
{"aggs":{"o":{"nested":{"path":"o"},"aggs":{"q":{"terms":{"field":"o.q"},"aggs":{"r":{"reverse_nested":{},"aggs":{"t":{"terms":{"field":"t"}}}}}}}}}}
{}
{"aggs":{"p":{"composite":{"size":4,"sources":[{"n":{"histogram":{"field":"n","interval":10}}},{"t":{"terms":{"field":"t","missing_bucket":true,"order":"desc"}}}]}}}}
"#,
        output: r#"{"errors":false,"items":[{"index":{"_id":"a","_index":"i","result":"created","status":201}},{"index":{"_id":"b","_index":"i","result":"created","status":201}},{"index":{"_id":"c","_index":"i","result":"created","status":201}}],"took":0}
{"_shards":{"failed":0,"skipped":0,"successful":2,"total":2},"aggregations":{"h":{"buckets":[{"doc_count":2,"key":-8,"s":{"value":-2}},{"doc_count":0,"key":2,"s":{"value":0}},{"doc_count":0,"key":12,"s":{"value":0}},{"doc_count":1,"key":22,"s":{"value":25}}]},"m":{"doc_count":2},"t":{"buckets":[{"doc_count":2,"doc_count_error_upper_bound":0,"key":"x","m":{"value":25}},{"doc_count":1,"doc_count_error_upper_bound":0,"key":"z","m":{"value":-3}}],"doc_count_error_upper_bound":0,"sum_other_doc_count":0}},"hits":{"hits":[],"max_score":null,"total":{"relation":"eq","value":3}},"status":200,"timed_out":false,"took":0}
{"_shards":{"failed":0,"skipped":0,"successful":2,"total":2},"aggregations":{"f":{"buckets":{"b":{"doc_count":1},"rest":{"doc_count":1}}},"g":{"a":{"count":3,"sum":23,"value_as_string":"7.666666"},"c":{"value":3},"doc_count":3},"o":{"doc_count":1,"n":{"value":1}}},"hits":{"hits":[],"max_score":null,"total":{"relation":"eq","value":2}},"status":200,"timed_out":false,"took":0}
{"_shards":{"failed":0,"skipped":0,"successful":2,"total":2},"aggregations":{"o":{"doc_count":3,"q":{"buckets":[{"doc_count":2,"key":2,"r":{"doc_count":2,"t":{"buckets":[{"doc_count":2,"key":"x"},{"doc_count":1,"key":"y"}],"doc_count_error_upper_bound":0,"sum_other_doc_count":0}}},{"doc_count":1,"key":1,"r":{"doc_count":1,"t":{"buckets":[{"doc_count":1,"key":"x"}],"doc_count_error_upper_bound":0,"sum_other_doc_count":0}}}],"doc_count_error_upper_bound":0,"sum_other_doc_count":0}}},"hits":{"hits":[],"max_score":null,"total":{"relation":"eq","value":3}},"status":200,"timed_out":false,"took":0}
{"_shards":{"failed":0,"skipped":0,"successful":2,"total":2},"aggregations":{"p":{"after_key":{"n":20,"t":"x"},"buckets":[{"doc_count":1,"key":{"n":-10,"t":null}},{"doc_count":1,"key":{"n":0,"t":"x"}},{"doc_count":1,"key":{"n":20,"t":"y"}},{"doc_count":1,"key":{"n":20,"t":"x"}}]}},"hits":{"hits":[],"max_score":null,"total":{"relation":"eq","value":3}},"status":200,"timed_out":false,"took":0}
{"breakers":{"fielddata":{"estimated_size_in_bytes":86,"granted_size_in_bytes":86,"limit_size_in_bytes":429496729,"overhead_percent":103,"tripped":0},"inflight_requests":{"estimated_size_in_bytes":0,"granted_size_in_bytes":1782,"limit_size_in_bytes":1073741824,"overhead_percent":200,"tripped":0},"parent":{"estimated_size_in_bytes":86,"granted_size_in_bytes":80564,"limit_size_in_bytes":751619276,"overhead_percent":100,"tripped":0},"request":{"estimated_size_in_bytes":0,"granted_size_in_bytes":78696,"limit_size_in_bytes":644245094,"overhead_percent":100,"tripped":0}}}
"#,
        status: 0,
    }
}

/// Queries that hold others.
fn queries() -> Case {
    Case {
        name: "queries",
        words: "",
        script: r#"{"index":"i","mappings":{"properties":{"n":{"type":"long"},"t":{"type":"keyword"},"b":{"type":"boolean"},"o":{"type":"nested","properties":{"q":{"type":"long"}}}}},"settings":{"number_of_shards":2}}

{"index":{"_id":"a"}}
{"n":1,"t":"x","b":true,"o":[{"q":1},{"q":2}]}
{"index":{"_id":"b"}}
{"n":25,"t":["x","y"],"o":{"q":2}}
{"index":{"_id":"c"}}
{"n":-3}

{}
{"query":{"bool":{"must":[{"range":{"n":{"gte":1}}}],"must_not":[{"ids":{"values":["b"]}}],"filter":{"match_all":{}}}}}
{}
{"query":{"bool":{"should":[{"terms":{"n":[1,-3]}},{"exists":{"field":"t"}}],"minimum_should_match":2}}}
{}
{"query":{"nested":{"path":"o","query":{"term":{"o.q":2}}}}}
"#,
        output: r#"{"errors":false,"items":[{"index":{"_id":"a","_index":"i","result":"created","status":201}},{"index":{"_id":"b","_index":"i","result":"created","status":201}},{"index":{"_id":"c","_index":"i","result":"created","status":201}}],"took":0}
{"_shards":{"failed":0,"skipped":0,"successful":2,"total":2},"hits":{"hits":[],"max_score":null,"total":{"relation":"eq","value":1}},"status":200,"timed_out":false,"took":0}
{"_shards":{"failed":0,"skipped":0,"successful":2,"total":2},"hits":{"hits":[],"max_score":null,"total":{"relation":"eq","value":1}},"status":200,"timed_out":false,"took":0}
{"_shards":{"failed":0,"skipped":0,"successful":2,"total":2},"hits":{"hits":[],"max_score":null,"total":{"relation":"eq","value":2}},"status":200,"timed_out":false,"took":0}
{"breakers":{"fielddata":{"estimated_size_in_bytes":86,"granted_size_in_bytes":86,"limit_size_in_bytes":429496729,"overhead_percent":103,"tripped":0},"inflight_requests":{"estimated_size_in_bytes":0,"granted_size_in_bytes":566,"limit_size_in_bytes":1073741824,"overhead_percent":200,"tripped":0},"parent":{"estimated_size_in_bytes":86,"granted_size_in_bytes":25747,"limit_size_in_bytes":751619276,"overhead_percent":100,"tripped":0},"request":{"estimated_size_in_bytes":0,"granted_size_in_bytes":25095,"limit_size_in_bytes":644245094,"overhead_percent":100,"tripped":0}}}
"#,
        status: 0,
    }
}

/// A number that has no room in an answer.
fn wide_sum() -> Case {
    Case {
        name: "a sum beyond 64 bits",
        words: "",
        script: r#"{"index":"i","mappings":{"properties":{"n":{"type":"long"}}},"settings":{"number_of_shards":2}}

{"index":{"_id":"a"}}
{"n":9223372036854775807}
{"index":{"_id":"b"}}
{"n":1}

{}
{"aggs":{"n":{"sum":{"field":"n"}}}}
"#,
        output: r#"{"errors":false,"items":[{"index":{"_id":"a","_index":"i","result":"created","status":201}},{"index":{"_id":"b","_index":"i","result":"created","status":201}}],"took":0}
{"error":{"path":"/n","reason":"a number is outside 64 bits","type":"number_range_exception"},"status":400}
{"breakers":{"fielddata":{"estimated_size_in_bytes":17,"granted_size_in_bytes":17,"limit_size_in_bytes":429496729,"overhead_percent":103,"tripped":0},"inflight_requests":{"estimated_size_in_bytes":0,"granted_size_in_bytes":72,"limit_size_in_bytes":1073741824,"overhead_percent":200,"tripped":0},"parent":{"estimated_size_in_bytes":17,"granted_size_in_bytes":10329,"limit_size_in_bytes":751619276,"overhead_percent":100,"tripped":0},"request":{"estimated_size_in_bytes":0,"granted_size_in_bytes":10240,"limit_size_in_bytes":644245094,"overhead_percent":100,"tripped":0}}}
"#,
        status: 0,
    }
}

/// Shard 1 is refused where shard 0 was collected before.
fn partial_results() -> Case {
    Case {
        name: "partial results",
        words: "-E indices.breaker.request.limit=5200b",
        script: r#"{"index":"i","mappings":{"properties":{"t":{"type":"keyword"}}},"settings":{"number_of_shards":2}}

{"index":{"routing":"1"}}
{"t":"a"}
{"index":{"routing":"0"}}
{"t":"b"}

{}
{"aggs":{"t":{"terms":{"field":"t"}}},"allow_partial_search_results":true}
"#,
        output: r#"{"errors":false,"items":[{"index":{"_id":"_auto_0","_index":"i","result":"created","status":201}},{"index":{"_id":"_auto_1","_index":"i","result":"created","status":201}}],"took":0}
{"_shards":{"failed":1,"failures":[{"reason":{"bytes_limit":5200,"bytes_wanted":5249,"durability":"TRANSIENT","reason":"[request] Data too large, data for [search] would be [5249b], which is larger than the limit of [5200b]","type":"circuit_breaking_exception"},"shard":1}],"skipped":0,"successful":1,"total":2},"aggregations":{"t":{"buckets":[{"doc_count":1,"key":"a"}],"doc_count_error_upper_bound":0,"sum_other_doc_count":0}},"hits":{"hits":[],"max_score":null,"total":{"relation":"eq","value":1}},"status":200,"timed_out":false,"took":0}
{"breakers":{"fielddata":{"estimated_size_in_bytes":19,"granted_size_in_bytes":19,"limit_size_in_bytes":429496729,"overhead_percent":103,"tripped":0},"inflight_requests":{"estimated_size_in_bytes":0,"granted_size_in_bytes":148,"limit_size_in_bytes":1073741824,"overhead_percent":200,"tripped":0},"parent":{"estimated_size_in_bytes":19,"granted_size_in_bytes":5445,"limit_size_in_bytes":751619276,"overhead_percent":100,"tripped":0},"request":{"estimated_size_in_bytes":0,"granted_size_in_bytes":5278,"limit_size_in_bytes":5200,"overhead_percent":100,"tripped":1}}}
"#,
        status: 0,
    }
}

// Asserts how a run of a case ended, and all that it wrote.
fn expect_case(rt: &impl Abort, case: &Case, workers: u32, ended: &Ended) {
    assert_eq!(rt; ended.status, case.status, "{}, {workers}", case.name);
    let is_wanted = ended.sink.written() == case.output.as_bytes();
    assert!(rt; is_wanted, "{}, {workers}", case.name);
}

// Runs a case with so many workers, and asserts how it ended.
fn check<R: Threads + Abort + Sync>(
    rt: &R,
    alloc: Global,
    case: &Case,
    workers: u32,
    gate: &dyn Gate,
) -> Result<(), Fail> {
    let words = format!(in alloc; "{} --workers {workers}", case.words)?;
    let script = Bytes::of(alloc, case.script.as_bytes())?;
    let ended = run_words(rt, alloc, words.as_str(), script, gate)?;
    expect_case(rt, case, workers, &ended);
    Ok(())
}

/// The output of these is one whatever order workers come in.
#[test]
fn each_class_of_answers_is_given(rt: HostRuntime) -> Result<(), Fail> {
    let cases = [
        settings(),
        limit_below_columns(),
        refused_search(),
        body_too_large(),
        partial_of_no_shard(),
        columns_too_large(),
        scan(),
        generated(),
        waves(),
        refused_bodies(),
        refused_documents(),
        refused_script(),
        refused_index_line(),
        refused_words(),
        dates(),
        date_histograms(),
        aggregations(),
        queries(),
        wide_sum(),
        pipelines::below_and_beside(),
        pipelines::at_the_top(),
        pipelines::rarest_term(),
        pipelines::months(),
        pipelines::wide_total(),
        pipelines::in_pages(),
    ];
    for case in &cases {
        check(&rt, rt.alloc(), case, 1, &OpenGate)?;
        check(&rt, rt.alloc(), case, 8, &OpenGate)?;
    }
    Ok(())
}

// Asserts the same of many workers where shard 1 is held until shard 0 was collected, as it is with one.
fn check_in_order<R: Threads + Abort + Sync>(
    rt: &R,
    alloc: Global,
    case: &Case,
) -> Result<(), Fail> {
    let gate = HeldBack::new(1, Point::Collected, 1);
    check(rt, alloc, case, 8, &gate)?;
    assert!(rt; gate.has_released());
    Ok(())
}

/// One worker who answers one search at a time passes no gate.
#[test]
fn a_shard_is_left_out_of_partial_results(rt: HostRuntime) -> Result<(), Fail> {
    let case = partial_results();
    check(&rt, rt.alloc(), &case, 1, &OpenGate)?;
    check_in_order(&rt, rt.alloc(), &case)
}
