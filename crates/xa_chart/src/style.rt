//! How the classes look. Each is told from the others without colours too, by its hatching or its
//! strokes.

/// The styles, and what they refer to.
pub const STYLE: &str = "<style>\n\
    text { font-family: 'DejaVu Sans', Verdana, sans-serif; font-size: 11px; fill: #222222; \
    stroke: #ffffff; stroke-width: 3; paint-order: stroke }\n\
    .number { text-anchor: end; fill: #777777 }\n\
    .head { text-anchor: middle; font-size: 13px; font-weight: bold }\n\
    .asked { text-anchor: end }\n\
    .standing { font-weight: bold }\n\
    .fault { fill: #a40000 }\n\
    .life { stroke: #bbbbbb; stroke-width: 2 }\n\
    .call { stroke: #222222 }\n\
    .answer { stroke: #222222; stroke-dasharray: 5 3 }\n\
    .stray { stroke: #a40000; stroke-dasharray: 2 3 }\n\
    .cross { stroke: #a40000; stroke-width: 2 }\n\
    rect { stroke: #222222; stroke-width: 1 }\n\
    .paper { fill: #ffffff; stroke: none }\n\
    .heads { fill: #eeeeee; stroke: none }\n\
    .down { fill: #ffffff; stroke: #a40000; stroke-dasharray: 2 3 }\n\
    .active { fill: #ffffff }\n\
    .idle { fill: #d9e6f2 }\n\
    .prepared { fill: url(#prepared) }\n\
    .rollback-only { fill: url(#rollback-only) }\n\
    .committed, .row { fill: #1a6b2f }\n\
    .rolled-back { fill: url(#rolled-back) }\n\
    .heuristic, .record { fill: url(#heuristic); stroke-width: 2 }\n\
    .read-only { fill: url(#read-only) }\n\
    .lost { fill: none; stroke: #777777; stroke-dasharray: 3 2 }\n\
    .none { fill: none; stroke: #bbbbbb }\n\
    </style>\n\
    <defs>\n\
    <marker id=\"head\" markerWidth=\"8\" markerHeight=\"8\" refX=\"7\" refY=\"3\" \
    orient=\"auto\"><path d=\"M0,0 L7,3 L0,6 z\" fill=\"#222222\"/></marker>\n\
    <pattern id=\"prepared\" width=\"6\" height=\"6\" patternUnits=\"userSpaceOnUse\">\
    <path d=\"M0,0 H6 V6 H0 z\" fill=\"#f9cf72\"/>\
    <path d=\"M-1,1 L1,-1 M0,6 L6,0 M5,7 L7,5\" stroke=\"#7a5200\"/></pattern>\n\
    <pattern id=\"rollback-only\" width=\"6\" height=\"6\" patternUnits=\"userSpaceOnUse\">\
    <path d=\"M0,0 H6 V6 H0 z\" fill=\"#fbeaea\"/>\
    <path d=\"M-1,5 L1,7 M0,0 L6,6 M5,-1 L7,1\" stroke=\"#c03030\"/></pattern>\n\
    <pattern id=\"rolled-back\" width=\"6\" height=\"5\" patternUnits=\"userSpaceOnUse\">\
    <path d=\"M0,0 H6 V5 H0 z\" fill=\"#ffffff\"/>\
    <path d=\"M0,1 H6\" stroke=\"#c03030\" stroke-width=\"2\"/></pattern>\n\
    <pattern id=\"heuristic\" width=\"5\" height=\"5\" patternUnits=\"userSpaceOnUse\">\
    <path d=\"M0,0 H5 V5 H0 z\" fill=\"#ffffff\"/>\
    <path d=\"M0,0 L5,5 M0,5 L5,0\" stroke=\"#6a3d9a\"/></pattern>\n\
    <pattern id=\"read-only\" width=\"4\" height=\"4\" patternUnits=\"userSpaceOnUse\">\
    <path d=\"M0,0 H4 V4 H0 z\" fill=\"#ffffff\"/>\
    <path d=\"M1,1 H2 V2 H1 z\" fill=\"#555555\"/></pattern>\n\
    </defs>\n";
