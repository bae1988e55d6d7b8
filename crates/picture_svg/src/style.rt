//! The colours and letters of a picture.

pub const STYLE: &[u8] = b"\
svg{font-family:system-ui,-apple-system,'Segoe UI',Roboto,'Noto Sans','Liberation Sans',Arial,sans-serif;color:#1b1f24}\
text{fill:#1b1f24;font-size:14px}\
.paper{fill:#fff}.band{fill:#f3f5f8}\
.site{font-weight:700;text-anchor:middle}.title{font-weight:700;font-size:18px}.small{fill:#57606a;font-size:12.5px}\
.path{stroke:currentColor;fill:none;stroke-width:5}.idle{stroke:currentColor;stroke-width:2;stroke-opacity:.5}\
.birth{stroke:currentColor;stroke-width:2.5}\
.message{stroke:currentColor;fill:currentColor;stroke-width:2}.net{stroke:#838d98;fill:#838d98;stroke-width:1}\
.message,.net{stroke-linejoin:round}.ribbon{fill:#ffdf5d;fill-opacity:.35}.pale{opacity:.25}\
.dot{fill:currentColor;stroke:#f3f5f8;stroke-width:1.5}.sent{fill:#57606a}.tick{fill:#f3f5f8;stroke:currentColor;stroke-width:.8}\
.ring,.take{fill:#f3f5f8;stroke:currentColor;stroke-width:2.5}.print{fill:currentColor}.lost{fill:#c1121f}\
.pill{fill:currentColor}.pillname{fill:#fff;font:700 12px ui-monospace,Menlo,Consolas,'DejaVu Sans Mono',monospace;text-anchor:middle}\
.name{fill:currentColor;font:700 13px ui-monospace,Menlo,Consolas,'DejaVu Sans Mono',monospace}\
.number{fill:#6b7480;font:10.5px ui-monospace,Menlo,Consolas,'DejaVu Sans Mono',monospace;text-anchor:end}\
.end{stroke:#57606a;stroke-width:3}\
.main{color:#24292f}.daemon{color:#8c959f}\
.a0{color:#0b69b7}.a1{color:#c94001}.a2{color:#005f38}.a3{color:#935f84}.a4{color:#2311ad}.a5{color:#3f2e00}.a6{color:#c1425f}\
@media(prefers-color-scheme:dark){svg{color:#e6edf3}text{fill:#e6edf3}.paper{fill:#0f1318}.band{fill:#171d24}.small{fill:#9aa6b2}\
.net{stroke:#6b7885;fill:#6b7885}.ribbon{fill:#6b5800}.dot{stroke:#171d24}.sent{fill:#9aa6b2}.tick,.ring,.take{fill:#171d24}\
.lost{fill:#ff6b6b}.pillname{fill:#0b0f14}\
.name,.print,.pill{fill:currentColor}.number{fill:#84909c}.end{stroke:#9aa6b2}.main{color:#e6edf3}.daemon{color:#84909c}\
.a0{color:#5cb3ff}.a1{color:#f5550e}.a2{color:#3ce8a0}.a3{color:#c96f94}.a4{color:#c2abd4}.a5{color:#f6de00}.a6{color:#e46166}}";
