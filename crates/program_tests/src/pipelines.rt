//! A script for each class of what pipelines say, as in `classes`. What is wanted was computed by another program.
use crate::classes::Case;

/// Sums that go on and changes beneath a histogram, and all its buckets beside it.
pub(crate) fn below_and_beside() -> Case {
    Case {
        name: "pipelines below and beside",
        words: "",
        script: r#"{"index":"i","mappings":{"properties":{"b":{"type":"boolean"},"n":{"type":"long"},"t":{"type":"keyword"}}},"settings":{"number_of_shards":1}}

{"index":{}}
{"n":-1}
{"index":{}}
{"n":0}
{"index":{}}
{"n":25}

{}
{"aggs":{"h":{"histogram":{"field":"n","interval":10},"aggs":{"c":{"cumulative_sum":{"buckets_path":"_count"}},"d":{"derivative":{"buckets_path":"_count"}}}},"s":{"sum_bucket":{"buckets_path":"h>_count"}},"x":{"max_bucket":{"buckets_path":"h>_count"}}}}
"#,
        output: r#"{"errors":false,"items":[{"index":{"_id":"_auto_0","_index":"i","result":"created","status":201}},{"index":{"_id":"_auto_1","_index":"i","result":"created","status":201}},{"index":{"_id":"_auto_2","_index":"i","result":"created","status":201}}],"took":0}
{"_shards":{"failed":0,"skipped":0,"successful":1,"total":1},"aggregations":{"h":{"buckets":[{"c":{"value":1},"doc_count":1,"key":-10},{"c":{"value":2},"d":{"value":0},"doc_count":1,"key":0},{"c":{"value":2},"d":{"value":-1},"doc_count":0,"key":10},{"c":{"value":3},"d":{"value":1},"doc_count":1,"key":20}]},"s":{"value":3},"x":{"keys":["-10","0","20"],"value":1}},"hits":{"hits":[],"max_score":null,"total":{"relation":"eq","value":3}},"status":200,"timed_out":false,"took":0}
{"breakers":{"fielddata":{"estimated_size_in_bytes":25,"granted_size_in_bytes":25,"limit_size_in_bytes":429496729,"overhead_percent":103,"tripped":0},"inflight_requests":{"estimated_size_in_bytes":0,"granted_size_in_bytes":506,"limit_size_in_bytes":1073741824,"overhead_percent":200,"tripped":0},"parent":{"estimated_size_in_bytes":25,"granted_size_in_bytes":6024,"limit_size_in_bytes":751619276,"overhead_percent":100,"tripped":0},"request":{"estimated_size_in_bytes":0,"granted_size_in_bytes":5493,"limit_size_in_bytes":644245094,"overhead_percent":100,"tripped":0}}}
"#,
        status: 0,
    }
}

/// A sum that goes on has buckets around it.
pub(crate) fn at_the_top() -> Case {
    Case {
        name: "a running sum at the top",
        words: "",
        script: r#"{"index":"i","mappings":{"properties":{"b":{"type":"boolean"},"n":{"type":"long"},"t":{"type":"keyword"}}},"settings":{"number_of_shards":1}}


{}
{"aggs":{"c":{"cumulative_sum":{"buckets_path":"_count"}}}}
"#,
        output: r#"{"errors":false,"items":[],"took":0}
{"error":{"code":115,"path":"/aggs/c","reason":"bad request","type":"parsing_exception"},"status":400}
{"breakers":{"fielddata":{"estimated_size_in_bytes":0,"granted_size_in_bytes":0,"limit_size_in_bytes":429496729,"overhead_percent":103,"tripped":0},"inflight_requests":{"estimated_size_in_bytes":0,"granted_size_in_bytes":118,"limit_size_in_bytes":1073741824,"overhead_percent":200,"tripped":0},"parent":{"estimated_size_in_bytes":0,"granted_size_in_bytes":118,"limit_size_in_bytes":751619276,"overhead_percent":100,"tripped":0},"request":{"estimated_size_in_bytes":0,"granted_size_in_bytes":0,"limit_size_in_bytes":644245094,"overhead_percent":100,"tripped":0}}}
"#,
        status: 0,
    }
}

/// Buckets are sorted and cut when the shards have been merged.
pub(crate) fn rarest_term() -> Case {
    Case {
        name: "the rarest term",
        words: "--concurrent-searches 8",
        script: r#"{"index":"i","mappings":{"properties":{"b":{"type":"boolean"},"n":{"type":"long"},"t":{"type":"keyword"}}},"settings":{"number_of_shards":7}}

{"index":{"_id":"1"}}
{"t":"a"}
{"index":{"_id":"2"}}
{"t":"a"}
{"index":{"_id":"3"}}
{"t":"a"}
{"index":{"_id":"4"}}
{"t":"a"}
{"index":{"_id":"5"}}
{"t":"a"}
{"index":{"_id":"6"}}
{"t":"a"}
{"index":{"_id":"7"}}
{"t":"a"}
{"index":{"_id":"8"}}
{"t":"a"}
{"index":{"_id":"9"}}
{"t":"a"}
{"index":{"_id":"10"}}
{"t":"a"}
{"index":{"_id":"11"}}
{"t":"a"}
{"index":{"_id":"12"}}
{"t":"a"}
{"index":{"_id":"13"}}
{"t":"b"}
{"index":{"_id":"14"}}
{"t":"b"}
{"index":{"_id":"15"}}
{"t":"b"}
{"index":{"_id":"16"}}
{"t":"b"}
{"index":{"_id":"17"}}
{"t":"b"}
{"index":{"_id":"18"}}
{"t":"b"}
{"index":{"_id":"19"}}
{"t":"b"}
{"index":{"_id":"20"}}
{"t":"b"}

{}
{"aggs":{"t":{"terms":{"field":"t"},"aggs":{"z":{"bucket_sort":{"sort":[{"_count":{"order":"asc"}}],"size":1}}}}}}
"#,
        output: r#"{"errors":false,"items":[{"index":{"_id":"1","_index":"i","result":"created","status":201}},{"index":{"_id":"2","_index":"i","result":"created","status":201}},{"index":{"_id":"3","_index":"i","result":"created","status":201}},{"index":{"_id":"4","_index":"i","result":"created","status":201}},{"index":{"_id":"5","_index":"i","result":"created","status":201}},{"index":{"_id":"6","_index":"i","result":"created","status":201}},{"index":{"_id":"7","_index":"i","result":"created","status":201}},{"index":{"_id":"8","_index":"i","result":"created","status":201}},{"index":{"_id":"9","_index":"i","result":"created","status":201}},{"index":{"_id":"10","_index":"i","result":"created","status":201}},{"index":{"_id":"11","_index":"i","result":"created","status":201}},{"index":{"_id":"12","_index":"i","result":"created","status":201}},{"index":{"_id":"13","_index":"i","result":"created","status":201}},{"index":{"_id":"14","_index":"i","result":"created","status":201}},{"index":{"_id":"15","_index":"i","result":"created","status":201}},{"index":{"_id":"16","_index":"i","result":"created","status":201}},{"index":{"_id":"17","_index":"i","result":"created","status":201}},{"index":{"_id":"18","_index":"i","result":"created","status":201}},{"index":{"_id":"19","_index":"i","result":"created","status":201}},{"index":{"_id":"20","_index":"i","result":"created","status":201}}],"took":0}
{"_shards":{"failed":0,"skipped":0,"successful":7,"total":7},"aggregations":{"t":{"buckets":[{"doc_count":8,"key":"b"}],"doc_count_error_upper_bound":0,"sum_other_doc_count":0}},"hits":{"hits":[],"max_score":null,"total":{"relation":"eq","value":20}},"status":200,"timed_out":false,"took":0}
{"breakers":{"fielddata":{"estimated_size_in_bytes":178,"granted_size_in_bytes":178,"limit_size_in_bytes":429496729,"overhead_percent":103,"tripped":0},"inflight_requests":{"estimated_size_in_bytes":0,"granted_size_in_bytes":228,"limit_size_in_bytes":1073741824,"overhead_percent":200,"tripped":0},"parent":{"estimated_size_in_bytes":178,"granted_size_in_bytes":39633,"limit_size_in_bytes":751619276,"overhead_percent":100,"tripped":0},"request":{"estimated_size_in_bytes":0,"granted_size_in_bytes":39227,"limit_size_in_bytes":644245094,"overhead_percent":100,"tripped":0}}}
"#,
        status: 0,
    }
}

/// A bucket takes along what was said of it before the cut.
pub(crate) fn months() -> Case {
    Case {
        name: "months",
        words: "",
        script: r#"{"index":"sales","mappings":{"properties":{"account":{"type":"keyword"},"cents":{"type":"long"},"month":{"type":"integer"}}},"settings":{"number_of_shards":2}}

{"index":{"_id":"1"}}
{"account":"north","cents":1250,"month":1}
{"index":{"_id":"2"}}
{"account":"south","cents":800,"month":1}
{"index":{"_id":"3"}}
{"account":"north","cents":3000,"month":3}
{"index":{"_id":"4"}}
{"account":"east","cents":-500,"month":4}
{"index":{"_id":"5"}}
{"account":"north","cents":3500,"month":4}
{"index":{"_id":"6"}}
{"account":"south","cents":2050,"month":6}

{}
{"aggs":{"best":{"max_bucket":{"buckets_path":"months>cents"}},"months":{"histogram":{"field":"month","interval":1},"aggs":{"cents":{"sum":{"field":"cents"}},"change":{"derivative":{"buckets_path":"cents"}},"running":{"cumulative_sum":{"buckets_path":"cents"}}}},"quietest":{"min_bucket":{"buckets_path":"months>_count"}},"year":{"sum_bucket":{"buckets_path":"months>cents.value"}}}}
{}
{"aggs":{"accounts":{"terms":{"field":"account"},"aggs":{"cents":{"sum":{"field":"cents"}},"two_most":{"bucket_sort":{"size":2,"sort":[{"cents":{"order":"desc"}}]}}}}}}
{}
{"aggs":{"months":{"histogram":{"field":"month","interval":1},"aggs":{"cents":{"sum":{"field":"cents"}},"largest":{"bucket_sort":{"size":3,"sort":[{"cents":{"order":"desc"}}]}},"running":{"cumulative_sum":{"buckets_path":"cents"}}}}}}
"#,
        output: r#"{"errors":false,"items":[{"index":{"_id":"1","_index":"sales","result":"created","status":201}},{"index":{"_id":"2","_index":"sales","result":"created","status":201}},{"index":{"_id":"3","_index":"sales","result":"created","status":201}},{"index":{"_id":"4","_index":"sales","result":"created","status":201}},{"index":{"_id":"5","_index":"sales","result":"created","status":201}},{"index":{"_id":"6","_index":"sales","result":"created","status":201}}],"took":0}
{"_shards":{"failed":0,"skipped":0,"successful":2,"total":2},"aggregations":{"best":{"keys":["3","4"],"value":3000},"months":{"buckets":[{"cents":{"value":2050},"doc_count":2,"key":1,"running":{"value":2050}},{"cents":{"value":0},"change":{"value":-2050},"doc_count":0,"key":2,"running":{"value":2050}},{"cents":{"value":3000},"change":{"value":3000},"doc_count":1,"key":3,"running":{"value":5050}},{"cents":{"value":3000},"change":{"value":0},"doc_count":2,"key":4,"running":{"value":8050}},{"cents":{"value":0},"change":{"value":-3000},"doc_count":0,"key":5,"running":{"value":8050}},{"cents":{"value":2050},"change":{"value":2050},"doc_count":1,"key":6,"running":{"value":10100}}]},"quietest":{"keys":["2","5"],"value":0},"year":{"value":10100}},"hits":{"hits":[],"max_score":null,"total":{"relation":"eq","value":6}},"status":200,"timed_out":false,"took":0}
{"_shards":{"failed":0,"skipped":0,"successful":2,"total":2},"aggregations":{"accounts":{"buckets":[{"cents":{"value":7750},"doc_count":3,"key":"north"},{"cents":{"value":2850},"doc_count":2,"key":"south"}],"doc_count_error_upper_bound":0,"sum_other_doc_count":0}},"hits":{"hits":[],"max_score":null,"total":{"relation":"eq","value":6}},"status":200,"timed_out":false,"took":0}
{"_shards":{"failed":0,"skipped":0,"successful":2,"total":2},"aggregations":{"months":{"buckets":[{"cents":{"value":3000},"doc_count":1,"key":3,"running":{"value":5050}},{"cents":{"value":3000},"doc_count":2,"key":4,"running":{"value":8050}},{"cents":{"value":2050},"doc_count":2,"key":1,"running":{"value":2050}}]}},"hits":{"hits":[],"max_score":null,"total":{"relation":"eq","value":6}},"status":200,"timed_out":false,"took":0}
{"breakers":{"fielddata":{"estimated_size_in_bytes":163,"granted_size_in_bytes":163,"limit_size_in_bytes":429496729,"overhead_percent":103,"tripped":0},"inflight_requests":{"estimated_size_in_bytes":0,"granted_size_in_bytes":1570,"limit_size_in_bytes":1073741824,"overhead_percent":200,"tripped":0},"parent":{"estimated_size_in_bytes":163,"granted_size_in_bytes":53540,"limit_size_in_bytes":751619276,"overhead_percent":100,"tripped":0},"request":{"estimated_size_in_bytes":0,"granted_size_in_bytes":51807,"limit_size_in_bytes":644245094,"overhead_percent":100,"tripped":0}}}
"#,
        status: 0,
    }
}

/// A total that has no room in an answer, and buckets that count before they are cut.
pub(crate) fn wide_total() -> Case {
    Case {
        name: "a total beyond 64 bits",
        words: "",
        script: r#"{"index":"i","mappings":{"properties":{"n":{"type":"long"},"t":{"type":"keyword"}}},"settings":{"number_of_shards":2}}

{"index":{"_id":"a"}}
{"n":9223372036854775807,"t":"x"}
{"index":{"_id":"b"}}
{"n":1,"t":"y"}

{}
{"aggs":{"h":{"terms":{"field":"t"},"aggs":{"s":{"sum":{"field":"n"}}}},"w":{"sum_bucket":{"buckets_path":"h>s"}}}}
{}
{"aggs":{"h":{"terms":{"field":"t"},"aggs":{"z":{"bucket_sort":{"size":1}}}}}}
{"persistent":{"search.max_buckets":1}}
{}
{"aggs":{"h":{"terms":{"field":"t"},"aggs":{"z":{"bucket_sort":{"size":1}}}}}}
"#,
        output: r#"{"errors":false,"items":[{"index":{"_id":"a","_index":"i","result":"created","status":201}},{"index":{"_id":"b","_index":"i","result":"created","status":201}}],"took":0}
{"error":{"path":"/w","reason":"a number is outside 64 bits","type":"number_range_exception"},"status":400}
{"_shards":{"failed":0,"skipped":0,"successful":2,"total":2},"aggregations":{"h":{"buckets":[{"doc_count":1,"key":"x"}],"doc_count_error_upper_bound":0,"sum_other_doc_count":0}},"hits":{"hits":[],"max_score":null,"total":{"relation":"eq","value":2}},"status":200,"timed_out":false,"took":0}
{"acknowledged":true}
{"error":{"count":2,"max_buckets":1,"reason":"too many buckets","type":"too_many_buckets_exception"},"status":400}
{"breakers":{"fielddata":{"estimated_size_in_bytes":36,"granted_size_in_bytes":36,"limit_size_in_bytes":429496729,"overhead_percent":103,"tripped":0},"inflight_requests":{"estimated_size_in_bytes":0,"granted_size_in_bytes":156,"limit_size_in_bytes":1073741824,"overhead_percent":200,"tripped":0},"parent":{"estimated_size_in_bytes":36,"granted_size_in_bytes":10948,"limit_size_in_bytes":751619276,"overhead_percent":100,"tripped":0},"request":{"estimated_size_in_bytes":0,"granted_size_in_bytes":10756,"limit_size_in_bytes":644245094,"overhead_percent":100,"tripped":0}}}
"#,
        status: 0,
    }
}

/// What stands in the buckets of each page.
pub(crate) fn in_pages() -> Case {
    Case {
        name: "pipelines in pages",
        words: "--scan",
        script: r#"{"index":"i","mappings":{"properties":{"n":{"type":"long"},"t":{"type":"keyword"}}},"settings":{"number_of_shards":2}}

{"index":{"routing":"1"}}
{"t":"a","n":1}
{"index":{"routing":"0"}}
{"t":["a","b"],"n":2}
{"index":{"routing":"0"}}
{"t":"c","n":3}

{}
{"aggs":{"p":{"composite":{"size":2,"sources":[{"t":{"terms":{"field":"t"}}}]},"aggs":{"h":{"histogram":{"field":"n","interval":1}},"w":{"sum_bucket":{"buckets_path":"h>_count"}}}}}}
"#,
        output: r#"{"errors":false,"items":[{"index":{"_id":"_auto_0","_index":"i","result":"created","status":201}},{"index":{"_id":"_auto_1","_index":"i","result":"created","status":201}},{"index":{"_id":"_auto_2","_index":"i","result":"created","status":201}}],"took":0}
{"_shards":{"failed":0,"skipped":0,"successful":2,"total":2},"aggregations":{"p":{"after_key":{"t":"b"},"buckets":[{"doc_count":2,"h":{"buckets":[{"doc_count":1,"key":1},{"doc_count":1,"key":2}]},"key":{"t":"a"},"w":{"value":2}},{"doc_count":1,"h":{"buckets":[{"doc_count":1,"key":2}]},"key":{"t":"b"},"w":{"value":1}}]}},"hits":{"hits":[],"max_score":null,"total":{"relation":"eq","value":3}},"status":200,"timed_out":false,"took":0}
{"_shards":{"failed":0,"skipped":0,"successful":2,"total":2},"aggregations":{"p":{"after_key":{"t":"c"},"buckets":[{"doc_count":1,"h":{"buckets":[{"doc_count":1,"key":3}]},"key":{"t":"c"},"w":{"value":1}}]}},"hits":{"hits":[],"max_score":null,"total":{"relation":"eq","value":3}},"status":200,"timed_out":false,"took":0}
{"_shards":{"failed":0,"skipped":0,"successful":2,"total":2},"aggregations":{"p":{"buckets":[]}},"hits":{"hits":[],"max_score":null,"total":{"relation":"eq","value":3}},"status":200,"timed_out":false,"took":0}
{"breakers":{"fielddata":{"estimated_size_in_bytes":62,"granted_size_in_bytes":62,"limit_size_in_bytes":429496729,"overhead_percent":103,"tripped":0},"inflight_requests":{"estimated_size_in_bytes":0,"granted_size_in_bytes":1092,"limit_size_in_bytes":1073741824,"overhead_percent":200,"tripped":0},"parent":{"estimated_size_in_bytes":62,"granted_size_in_bytes":39053,"limit_size_in_bytes":751619276,"overhead_percent":100,"tripped":0},"request":{"estimated_size_in_bytes":0,"granted_size_in_bytes":37899,"limit_size_in_bytes":644245094,"overhead_percent":100,"tripped":0}}}
"#,
        status: 0,
    }
}
